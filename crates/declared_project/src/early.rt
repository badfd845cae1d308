// What names mean while declarations are computed.

ghost use Rattle.std.specs.Prelude.{◌≡◌};

use declared_names::{
    At, is_same, literal, milliseconds, seen_here, type_value_here, typed_literal,
};
use expression_types::{
    Callee, Field, FunctionNo, Meaning, Names, Seen, ShapeNo, Taken, TypeValue, TypedNumber,
    ValueType,
};
use st_tree::Number;

/// What names mean in a declaration by what is known so far. Neither a part nor the variable at an address
/// nor a call is constant: none of them is known.
#[derive(Clone, Copy)]
pub struct Early<'a, 't> {
    pub at: At<'a, 't>,
}

impl<'a, 't> Names for Early<'a, 't> {
    ghost use Rattle.declared_names.specs.Meaning.{names_here};
    ghost use Rattle.declared_names.specs.Tables.{known_at, here_of};

    ghost names = { λ s. names_here (known_at s.at) (here_of s.at) };

    fn literal(&self, negative: bool, text: &[u8]) -> Option<Number> {
        literal(negative, text)
    }

    fn typed_literal(&self, text: &[u8]) -> Option<TypedNumber> {
        typed_literal(text)
    }

    fn time(&self, text: &[u8]) -> Option<Number> {
        milliseconds(text)
    }

    fn seen(&self, name: &[u8]) -> Seen {
        seen_here(&self.at, name)
    }

    fn type_value(&self, type_name: &[u8], value_name: &[u8]) -> TypeValue {
        type_value_here(&self.at, type_name, value_name)
    }

    fn is_same(&self, a: ShapeNo, b: ShapeNo) -> bool {
        is_same(self.at.project(), a, b)
    }
}

impl<'a, 't> Meaning for Early<'a, 't> {
    ghost use Rattle.declared_project.specs.Surrounding.{no_parts};

    ghost parts = { λ s. no_parts };

    fn address(&self, _address: &[u8]) -> Seen {
        Seen::Faulty
    }

    fn field(&self, _shape: ShapeNo, _name: &[u8]) -> Field {
        Field::Faulty
    }

    fn element(&self, _shape: ShapeNo, _indices: usize) -> Option<ValueType> {
        None
    }

    fn is_enumeration(&self, _shape: ShapeNo) -> bool {
        false
    }

    fn callee(&self, _name: &[u8]) -> Callee {
        Callee::Unknown
    }

    fn input_count(&self, _function: FunctionNo) -> usize {
        0
    }

    fn input(&self, _function: FunctionNo, _at: usize) -> Option<Taken> {
        None
    }

    fn input_named(&self, _function: FunctionNo, _name: &[u8]) -> Option<usize> {
        None
    }

    fn declares(&self, _function: FunctionNo, _name: &[u8]) -> bool {
        false
    }

    fn result_type(&self, _function: FunctionNo) -> Option<ValueType> {
        None
    }
}
