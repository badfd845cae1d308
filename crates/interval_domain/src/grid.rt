// The grid to whose numbers the bounds of intervals are rounded.
ghost use Rattle.std.specs.Prelude.{◌≡◌, ◌||◌, IfOk, OnOk, ◌++◌, ◌∷◌, [], take, map};
ghost use Rattle.std.specs.List.{flat_map, list_any};
ghost use Rattle.std.specs.List.Sorted.{IsStrictlySortedBy};
ghost use Rattle.std.specs.Ordering.{int_cmp, int_eq};
ghost use Rattle.interval_domain.specs.Interval as intervals;
ghost use Rattle.interval_domain.specs.Operators as rows;
ghost use Rattle.interval_domain.specs.Grid as grids;

use crate::interval::Interval;
use crate::operators::{kept, kept_difference, kept_sum};
use crate::widths::TYPES;
use iec_tables::elem::{Elem, high, low};
use station_ports::outside::NoMemory;
use std::alloc::{AllocError, Global};
use std::marker::Model;

/// The most numbers of a grid besides the bounds of types.
const LIMIT: usize = 1024;

/// A rising list of numbers, the least and the greatest number of all types among them. To
/// contracts it is that list.
#[derive(Drop)]
pub struct Grid {
    numbers: Vec<i128>,
}

impl Model for Grid {
    ghost use Rattle.std.specs.Prelude.{List, ℤ};
    ghost use Rattle.interval_domain.specs.Grid.{IsRounder};

    ghost Value = { List ℤ };

    ghost view = { λ g. g.numbers.items };

    ghost invariant = { λ g. IsRounder g.numbers.items };
}

impl Grid {
    /// The grid for these literals, in time of sorting them: the bounds of all types, and at most
    /// 1,024 others of -1 and of each literal with its two neighbours, which are those of least
    /// size, the negative first of two.
    pub fn of(alloc: Global, literals: &[i128]) -> Result<Grid, NoMemory>
        ensures { IfOk result (λ grid. grids.IsGrid literals.now grid) }
    {
        let numbers = grid_numbers(alloc, literals)?;
        Ok(Grid { numbers })
    }

    /// Moves each bound outward to the nearest number of the grid. The empty interval stays, and so
    /// does a bound beyond the numbers of all types.
    pub fn round(&self, i: Interval) -> Interval
        ensures value { result ≡ grids.rounded self.now i }
        ensures wider { intervals.IsWithin i result }
        ensures larger { grids.GrowsFrom self.now i result }
        ensures on_grid { intervals.IsWithin i grids.all_numbers → grids.IsOnGrid self.now result }
        ensures least { grids.IsLeastOnGrid self.now i result }
        ensures hulls { grids.GivesHulls self.now i result }
    {
        match i.bounds() {
            None => Interval::empty(),
            Some((low, high)) => {
                Interval::of(floor(&self.numbers, low), ceiling(&self.numbers, high))
            },
        }
    }
}

// The greatest of rising numbers that is at most the value, or the value where there is none.
fn floor(numbers: &[i128], value: i128) -> i128
    requires { IsStrictlySortedBy int_cmp numbers.now }
    ensures { result ≡ grids.floor_in numbers.now value }
{
    let count = numbers.partition_point(|number| *number <= value);
    if count == 0 {
        value
    } else {
        numbers[count - 1]
    }
}

// The least of rising numbers that is at least the value, or the value where there is none.
fn ceiling(numbers: &[i128], value: i128) -> i128
    requires { IsStrictlySortedBy int_cmp numbers.now }
    ensures { result ≡ grids.ceiling_in numbers.now value }
{
    let count = numbers.partition_point(|number| *number < value);
    if count < numbers.len() {
        numbers[count]
    } else {
        value
    }
}

// The bounds of types and the first other candidates, rising, each once.
fn grid_numbers(alloc: Global, literals: &[i128]) -> Result<Vec<i128>, AllocError>
    ensures { IfOk result (λ numbers. grids.IsGrid literals.now numbers.items) }
{
    let ranks = first_ranks(alloc, literals)?;
    let mut numbers = bounds_of_all(alloc, &TYPES)?;
    push_numbers(&mut numbers, &ranks)?;
    numbers.sort()?;
    numbers.dedup();
    Ok(numbers)
}

fn push_numbers(numbers: &mut Vec<i128>, ranks: &[u128]) -> Result<(), AllocError>
    ensures { OnOk result (numbers.new.items ≡ numbers.old.items ++ map grids.number_of ranks.now) }
{
    for rank in ranks {
        numbers.push(number_of(*rank))?;
    }
    Ok(())
}

// The first ranks of the candidates that are no bound of a type.
fn first_ranks(alloc: Global, literals: &[i128]) -> Result<Vec<u128>, AllocError>
    ensures { IfOk result (λ ranks. grids.AreFirstRanks literals.now ranks.items) }
{
    let mut ranks = candidate_ranks(alloc, literals)?;
    ranks.sort()?;
    ranks.dedup();
    ranks.truncate(LIMIT);
    Ok(ranks)
}

fn candidate_ranks(alloc: Global, literals: &[i128]) -> Result<Vec<u128>, AllocError>
    ensures { IfOk result (λ ranks. ranks.items ≡ grids.ranks_of (grids.candidates literals.now)) }
{
    let mut ranks = Vec::new(alloc);
    push_rank(&mut ranks, -1)?;
    for literal in literals {
        push_neighbours(&mut ranks, *literal)?;
    }
    Ok(ranks)
}

fn push_neighbours(ranks: &mut Vec<u128>, literal: i128) -> Result<(), AllocError>
    ensures { OnOk result (ranks.new.items ≡ ranks.old.items ++ grids.ranks_of (grids.neighbours literal)) }
{
    push_rank(ranks, kept_difference(literal, 1))?;
    push_rank(ranks, kept(literal))?;
    push_rank(ranks, kept_sum(literal, 1))?;
    Ok(())
}

fn push_rank(ranks: &mut Vec<u128>, number: i128) -> Result<(), AllocError>
    ensures { OnOk result (ranks.new.items ≡ ranks.old.items ++ grids.ranks_of (number ∷ [])) }
{
    if is_type_bound(number) {
        Ok(())
    } else {
        ranks.push(rank_of(number))?;
        Ok(())
    }
}

fn is_type_bound(number: i128) -> bool
    ensures { result ≡ list_any (grids.is_bound_of number) grids.all_types }
{
    TYPES.iter().any(|t| is_bound_of(number, *t))
}

fn is_bound_of(number: i128, t: Elem) -> bool
    ensures { result ≡ grids.is_bound_of number t }
{
    is_either(number, low(t), high(t))
}

fn is_either(number: i128, first: i128, second: i128) -> bool
    ensures { result ≡ (int_eq first number || int_eq second number) }
{
    first == number || second == number
}

fn rank_of(number: i128) -> u128
    ensures { result ≡ grids.rank_of number }
{
    if number < 0 {
        2 * (-(number + 1)) as u128 + 1
    } else {
        2 * number as u128
    }
}

fn number_of(rank: u128) -> i128
    ensures { result ≡ grids.number_of rank }
{
    let half = (rank / 2) as i128;
    if rank % 2 == 0 { half } else { -1 - half }
}

// The least and the greatest number of each of the types.
fn bounds_of_all(alloc: Global, types: &[Elem]) -> Result<Vec<i128>, AllocError>
    ensures { IfOk result (λ numbers. numbers.items ≡ flat_map grids.bounds_of types.now) }
{
    let mut numbers = Vec::new(alloc);
    for t in types {
        push_bounds(&mut numbers, *t)?;
    }
    Ok(numbers)
}

fn push_bounds(numbers: &mut Vec<i128>, t: Elem) -> Result<(), AllocError>
    ensures { OnOk result (numbers.new.items ≡ numbers.old.items ++ grids.bounds_of t) }
{
    numbers.push(low(t))?;
    numbers.push(high(t))?;
    Ok(())
}
