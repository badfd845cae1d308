// What stands around a body.

ghost use Rattle.std.specs.Prelude.{◌≡◌};

use expression_types::{Meaning, Names, ShapeNo};
use iec_tables::elem::Elem;

/// The numbers of an elementary type from a lower bound to an upper one.
#[derive(Clone, Copy, Debug, PartialEq, Eq)]
pub struct Scalar {
    pub elem: Elem,
    pub low: i128,
    pub high: i128,
}

/// A type with its bounds.
#[derive(Clone, Copy, Debug, PartialEq, Eq)]
pub enum ExactType {
    /// An elementary type or a subrange of one.
    Scalar(Scalar),
    /// No elementary type.
    Other(ShapeNo),
}

/// What the variable that a FOR names is.
#[derive(Clone, Copy, Debug, PartialEq, Eq)]
pub enum CounterVariable {
    /// Nothing declares the name.
    Unknown,
    /// Its declaration holds a fault.
    Faulty,
    /// It is no variable of an integer type that the unit declares for itself, in VAR or in VAR_TEMP.
    NoCounter,
    /// Such a variable, which isn't assignable.
    NotAssignable,
    /// Such a variable, and its type.
    Is(Elem),
}

/// What a name is that is called as a statement.
#[derive(Clone, Copy, Debug, PartialEq, Eq)]
pub enum Called {
    /// No instance of a block, and no function either.
    NoInstance,
    /// A function, whose call is no statement.
    Function,
    /// The declaration of the variable holds a fault.
    Faulty,
    Instance(ShapeNo),
}

/// What a block has under a name. A type is None where the declaration holds a fault.
#[derive(Clone, Copy, Debug, PartialEq, Eq)]
pub enum BlockPart {
    Unknown,
    /// A variable of its own, which no caller sees.
    Hidden,
    Input(Option<ExactType>),
    Output(Option<ExactType>),
    InOut(Option<ExactType>),
}

/// What the names in a body mean, beside what they mean in expressions.
pub trait Bodies: Meaning {
    ghost use Rattle.std.specs.Prelude.{length, option_map, slice_get};
    ghost use Rattle.body_rules.specs.Surroundings.{Surroundings};

    ghost around: { Self → Surroundings };

    /// The type of the variable that a path's name stands for; none where it stands for none, or for
    /// one whose declaration holds a fault.
    fn variable_type(&self, name: &[u8]) -> Option<ExactType>
        ensures { result ≡ (around self.now).variable_type name.now };

    /// The type of the variable at an address.
    fn address_type(&self, address: &[u8]) -> Option<ExactType>
        ensures { result ≡ (around self.now).address_type address.now };

    /// The type of a part of a shape; none where it has none of this name, or one whose declaration
    /// holds a fault.
    fn field_type(&self, shape: ShapeNo, name: &[u8]) -> Option<ExactType>
        ensures { result ≡ (around self.now).field_type shape name.now };

    /// The type of an array's elements; none where the shape is no array.
    fn element_type(&self, shape: ShapeNo) -> Option<ExactType>
        ensures { result ≡ (around self.now).element_type shape };

    /// Whether what a path's name stands for may be written to, as a whole or in parts, where no loop
    /// around counts it.
    fn is_assignable(&self, name: &[u8]) -> bool
        ensures { result ≡ (around self.now).is_assignable name.now };

    /// Whether the variable at an address may be written to.
    fn is_assignable_at(&self, address: &[u8]) -> bool
        ensures { result ≡ (around self.now).is_assignable_at address.now };

    /// Whether an address is the one at which the variable with this name is declared.
    fn is_declared_at(&self, name: &[u8], address: &[u8]) -> bool
        ensures { result ≡ (around self.now).is_declared_at name.now address.now };

    /// Whether a shape is an instance of a block.
    fn is_instance(&self, shape: ShapeNo) -> bool
        ensures { result ≡ (around self.now).is_instance shape };

    /// The variable that a FOR names.
    fn counter(&self, name: &[u8]) -> CounterVariable
        ensures { result ≡ (around self.now).counter name.now };

    /// What a name is that is called as a statement.
    fn called(&self, name: &[u8]) -> Called
        ensures { result ≡ (around self.now).called name.now };

    /// What a block has under a name.
    fn block_part(&self, shape: ShapeNo, name: &[u8]) -> BlockPart
        ensures { result ≡ (around self.now).block_part shape name.now };

    /// How many VAR_IN_OUT a block has.
    fn in_out_count(&self, shape: ShapeNo) -> usize
        ensures { result ≡ length ((around self.now).in_outs shape) };

    /// The name of a block's VAR_IN_OUT, by its place among all of them; none past the last one.
    fn in_out(&self, shape: ShapeNo, at: usize) -> Option<&[u8]>
        ensures { option_map (λ s. s.now) result ≡ slice_get ((around self.now).in_outs shape) at };

    /// Whether a name is that of a step of the unit's chart.
    fn has_step(&self, name: &[u8]) -> bool
        ensures { result ≡ (around self.now).has_step name.now };

    /// Whether a name is that of an action of the unit's chart.
    fn has_action(&self, name: &[u8]) -> bool
        ensures { result ≡ (around self.now).has_action name.now };

    /// Whether a name is that of a BOOL variable, the unit's own or else a global one.
    fn is_truth(&self, name: &[u8]) -> bool
        ensures { result ≡ (around self.now).is_truth name.now };
}
