// The first bytes of a file's comments.

ghost use Rattle.std.specs.Prelude.{◌≡◌};
ghost use Rattle.std.specs.List.Sorted.{IsNonDecreasing};
ghost use Rattle.tree_numbers.specs.NumberedAt as spec;

use std::marker::Model;

/// The first bytes of a file's comments, ascending. To contracts it is their list.
#[derive(Drop)]
pub struct Starts<'a> {
    places: &'a [usize],
}

impl<'a> Model for Starts<'a> {
    ghost use Rattle.std.specs.Prelude.{ℕ, List};
    ghost use Rattle.std.specs.List.Sorted.{IsNonDecreasing};

    ghost Value = { List ℕ };

    ghost view = { λ s. s.places.now };

    ghost invariant = { λ s. IsNonDecreasing s.places.now };
}

impl<'a> Starts<'a> {
    /// These places, which ascend.
    pub fn of(places: &'a [usize]) -> Self
        requires { IsNonDecreasing places.now }
        ensures { result ≡ places.now }
    {
        Starts { places }
    }

    /// How many of them lie before this place.
    pub fn before(&self, place: usize) -> usize
        ensures { result ≡ spec.before self.now place }
    {
        self.places.partition_point(|start| *start < place)
    }
}
