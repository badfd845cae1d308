// Types that are the same.

ghost use Rattle.std.specs.Prelude.{◌≡◌};
ghost use Rattle.std.specs.Option.{option_map};
ghost use Rattle.declared_types.specs.BareForms.{bare_forms};
ghost use Rattle.declared_project.specs.SameTypes as spec;

use declared_types::{ArrayForm, Bounds, DeclType, Dim, Form};
use expression_types::ShapeNo;
use iec_tables::elem::{Elem, converts};

fn same_elem(a: Elem, b: Elem) -> bool
    ensures { result ≡ spec.same_elem a b }
{
    converts(a, b) && converts(b, a)
}

fn same_number(a: i128, b: i128) -> bool
    ensures { result ≡ spec.same_number a b }
{
    a <= b && b <= a
}

fn same_bounds(a: Bounds, b: Bounds) -> bool
    ensures { result ≡ spec.same_bounds a b }
{
    same_elem(a.elem, b.elem) && (same_number(a.low, b.low) && same_number(a.high, b.high))
}

fn same_dim(a: Dim, b: Dim) -> bool
    ensures { result ≡ spec.same_dim a b }
{
    same_number(a.low, b.low) && same_number(a.high, b.high)
}

fn same_dims(a: &[Dim], b: &[Dim]) -> bool
    ensures { result ≡ spec.same_dims a.now b.now }
{
    match a {
        [] => match b {
            [] => true,
            [_, ..] => false,
        },
        [first, rest @ ..] => match b {
            [] => false,
            [other, others @ ..] => same_dim(*first, *other) && same_dims(rest, others),
        },
    }
}

fn same_shape(a: ShapeNo, b: ShapeNo) -> bool
    ensures { result ≡ spec.same_shape a b }
{
    a.0 == b.0
}

fn array_at<'a>(forms: &'a [Form<'_>], shape: ShapeNo) -> Option<&'a ArrayForm>
    ensures { option_map (λ a. a.now) result ≡ spec.array_at (bare_forms forms.now) shape }
{
    match forms.get(shape.0 as usize) {
        Some(Form::Array(array)) => Some(array),
        _ => None,
    }
}

/// Whether two types are one, arrays of arrays to this depth.
#[cycle(same)]
fn same_within(forms: &[Form<'_>], left: usize, a: DeclType, b: DeclType) -> bool
    ensures { result ≡ spec.same_within (bare_forms forms.now) left a b }
{
    if left == 0 {
        return false;
    }
    match a {
        DeclType::Scalar(a) => match b {
            DeclType::Scalar(b) => same_bounds(a, b),
            _ => false,
        },
        DeclType::Enumeration(a) => match b {
            DeclType::Enumeration(b) => same_shape(a, b),
            _ => false,
        },
        DeclType::Structure(a) => match b {
            DeclType::Structure(b) => same_shape(a, b),
            _ => false,
        },
        DeclType::Instance(a) => match b {
            DeclType::Instance(b) => same_shape(a, b),
            _ => false,
        },
        DeclType::Array(a) => match b {
            DeclType::Array(b) => same_elements(forms, left - 1, a, b),
            _ => false,
        },
    }
}

#[cycle(same)]
fn same_elements(forms: &[Form<'_>], left: usize, a: ShapeNo, b: ShapeNo) -> bool
    ensures { result ≡ spec.elements_of (spec.array_at (bare_forms forms.now) a)
        (spec.array_at (bare_forms forms.now) b) (spec.same_within (bare_forms forms.now) left) }
{
    match array_at(forms, a) {
        None => false,
        Some(a) => match array_at(forms, b) {
            None => false,
            Some(b) => {
                same_dims(a.dims.as_slice(), b.dims.as_slice())
                    && same_within(forms, left, a.element.ty, b.element.ty)
            },
        },
    }
}

/// Whether two types are the same.
#[tactic(auto, using(crate::proofs::Lengths::whole_depth))]
pub(crate) fn same_types(forms: &[Form<'_>], a: DeclType, b: DeclType) -> bool
    ensures { result ≡ spec.same_types (bare_forms forms.now) a b }
{
    same_within(forms, forms.len() + 1, a, b)
}
