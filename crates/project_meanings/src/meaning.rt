// What all that expressions ask for means.

ghost use Rattle.std.specs.Prelude.{◌≡◌};
ghost use Rattle.project_meanings.specs.Meaning as spec;
ghost use Rattle.project_meanings.specs.Tables.{whole_in};

use crate::addresses::address_there;
use crate::callees::callee_there;
use crate::functions::{declares, input, input_count, input_named, result_type};
use crate::names::seen_there;
use crate::parts::{element_there, field_there};
use crate::whole::Whole;
use declared_names::{
    is_same, literal, milliseconds, shape_listed, type_value_here, typed_literal,
};
use expression_types::{
    Callee, Field, FunctionNo, Meaning, Names, Seen, ShapeNo, Taken, TypeValue, TypedNumber,
    ValueType,
};
use st_tree::Number;

fn is_enumeration(whole: &Whole<'_, '_>, shape: ShapeNo) -> bool
    ensures { result ≡ spec.is_enumeration (whole_in whole.now) shape }
{
    match shape_listed(whole.at.project(), shape) {
        None => false,
        Some(_) => true,
    }
}

impl<'a, 't> Names for Whole<'a, 't> {
    ghost names = { λ w. spec.names_there (whole_in w) };

    fn literal(&self, negative: bool, text: &[u8]) -> Option<Number> {
        literal(negative, text)
    }

    fn typed_literal(&self, text: &[u8]) -> Option<TypedNumber> {
        typed_literal(text)
    }

    fn time(&self, text: &[u8]) -> Option<Number> {
        milliseconds(text)
    }

    fn seen(&self, name: &[u8]) -> Seen {
        seen_there(self, name)
    }

    fn type_value(&self, type_name: &[u8], value_name: &[u8]) -> TypeValue {
        type_value_here(&self.at, type_name, value_name)
    }

    fn is_same(&self, a: ShapeNo, b: ShapeNo) -> bool {
        is_same(self.at.project(), a, b)
    }
}

impl<'a, 't> Meaning for Whole<'a, 't> {
    ghost parts = { λ w. spec.parts_there (whole_in w) };

    fn address(&self, address: &[u8]) -> Seen {
        address_there(self, address)
    }

    fn field(&self, shape: ShapeNo, name: &[u8]) -> Field {
        field_there(self, shape, name)
    }

    fn element(&self, shape: ShapeNo, indices: usize) -> Option<ValueType> {
        element_there(self, shape, indices)
    }

    fn is_enumeration(&self, shape: ShapeNo) -> bool {
        is_enumeration(self, shape)
    }

    fn callee(&self, name: &[u8]) -> Callee {
        callee_there(self, name)
    }

    fn input_count(&self, function: FunctionNo) -> usize {
        input_count(self, function)
    }

    fn input(&self, function: FunctionNo, at: usize) -> Option<Taken> {
        input(self, function, at)
    }

    fn input_named(&self, function: FunctionNo, name: &[u8]) -> Option<usize> {
        input_named(self, function, name)
    }

    fn declares(&self, function: FunctionNo, name: &[u8]) -> bool {
        declares(self, function, name)
    }

    fn result_type(&self, function: FunctionNo) -> Option<ValueType> {
        result_type(self, function)
    }
}
