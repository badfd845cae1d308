// What names and types mean where an expression stands.

ghost use Rattle.std.specs.Prelude.{◌≡◌};

use iec_tables::elem::Elem;
use st_tree::Number;
use standard_names::StandardFunction;

/// The number of a type that isn't elementary: an enumeration, an array, a structure or a block.
#[derive(Clone, Copy, Debug, PartialEq, Eq)]
pub struct ShapeNo(pub u32);

/// The type of a value. A subrange counts as its base type.
#[derive(Clone, Copy, Debug, PartialEq, Eq)]
pub enum ValueType {
    Elem(Elem),
    Other(ShapeNo),
}

/// A typed number as it is written, inside the range of the type or not.
#[derive(Clone, Copy, Debug, PartialEq, Eq)]
pub struct TypedNumber {
    pub elem: Elem,
    pub number: Number,
}

/// A constant with its type and its number.
#[derive(Clone, Copy, Debug, PartialEq, Eq)]
pub struct Constant {
    pub ty: ValueType,
    pub number: Number,
}

/// What a name stands for.
#[derive(Clone, Copy, Debug, PartialEq, Eq)]
pub enum Seen {
    /// Nothing declares it.
    Unknown,
    /// Its declaration holds a fault.
    Faulty,
    /// A global that isn't constant, in a function.
    Foreign,
    /// What is no value alone and may have parts: a step, or a value of two enumerations.
    NoValue(ShapeNo),
    /// A variable, or a constant that has no number.
    Variable(ValueType),
    /// A constant or the value of an enumeration, whose number is its place.
    Constant(Constant),
}

/// What the name of a type with that of a value stands for.
#[derive(Clone, Copy, Debug, PartialEq, Eq)]
pub enum TypeValue {
    /// Nothing declares the type.
    UnknownType,
    /// The declaration of the type holds a fault.
    Faulty,
    /// It is no enumeration.
    NoEnumeration,
    /// The enumeration has no value of this name.
    UnknownValue,
    /// The enumeration, and the place of the value in it.
    Is(Constant),
}

/// What a part of a shape is.
#[derive(Clone, Copy, Debug, PartialEq, Eq)]
pub enum Field {
    /// The shape has no parts.
    NoParts,
    /// It has no part of this name.
    Unknown,
    /// The profile leaves the part out.
    LeftOut,
    /// The declaration of the part holds a fault.
    Faulty,
    Is(ValueType),
}

/// The number of a function of the project.
#[derive(Clone, Copy, Debug, PartialEq, Eq)]
pub struct FunctionNo(pub u32);

/// What a call of a name calls.
#[derive(Clone, Copy, Debug, PartialEq, Eq)]
pub enum Callee {
    /// No function.
    Unknown,
    /// A function that the profile leaves out.
    LeftOut,
    /// A function of the project.
    Function(FunctionNo),
    /// A function of the standard.
    Standard(StandardFunction),
}

/// What an input of a function takes.
#[derive(Clone, Copy, Debug, PartialEq, Eq)]
pub enum Taken {
    /// Its declaration holds a fault: any value will do.
    Anything,
    /// What converts to this type.
    Elem(Elem),
    /// A value of this enumeration.
    Shape(ShapeNo),
    /// It is an array, a structure or a block, which no argument gives.
    Nothing,
}

/// What literals, and the names in declarations of constants, mean.
pub trait Names {
    ghost use Rattle.expression_types.specs.Meanings.{Names};

    ghost names: { Self → Names };

    /// The number of a literal, with a minus directly before it or none. None where it is outside
    /// each type.
    fn literal(&self, negative: bool, text: &[u8]) -> Option<Number>
        ensures { result ≡ (names self.now).literal negative text.now };

    /// The type and the number of a typed literal. None where the number is outside each type.
    fn typed_literal(&self, text: &[u8]) -> Option<TypedNumber>
        ensures { result ≡ (names self.now).typed_literal text.now };

    /// The milliseconds of a time.
    fn time(&self, text: &[u8]) -> Option<Number>
        ensures { result ≡ (names self.now).time text.now };

    /// What a name stands for.
    fn seen(&self, name: &[u8]) -> Seen
        ensures { result ≡ (names self.now).seen name.now };

    /// What `type_name#value_name` stands for.
    fn type_value(&self, type_name: &[u8], value_name: &[u8]) -> TypeValue
        ensures { result ≡ (names self.now).type_value type_name.now value_name.now };

    /// Whether two shapes are one type.
    fn is_same(&self, a: ShapeNo, b: ShapeNo) -> bool
        ensures { result ≡ (names self.now).is_same a b };
}

/// What the names in any expression mean.
pub trait Meaning: Names {
    ghost use Rattle.std.specs.Prelude.{length};
    ghost use Rattle.iec_tables.specs.Words.{raised_all};
    ghost use Rattle.expression_types.specs.Meanings.{Parts};
    ghost use Rattle.expression_types.specs.Inputs as inputs;

    ghost parts: { Self → Parts };

    /// The variable at an address.
    fn address(&self, address: &[u8]) -> Seen
        ensures { result ≡ (parts self.now).address address.now };

    /// The part of a shape with this name.
    fn field(&self, shape: ShapeNo, name: &[u8]) -> Field
        ensures { result ≡ (parts self.now).field shape name.now };

    /// The type of an element under so many indices; none where the shape is no array of so many
    /// dimensions.
    fn element(&self, shape: ShapeNo, indices: usize) -> Option<ValueType>
        ensures { result ≡ (parts self.now).element shape indices };

    fn is_enumeration(&self, shape: ShapeNo) -> bool
        ensures { result ≡ (parts self.now).is_enumeration shape };

    /// What a call of a name calls.
    fn callee(&self, name: &[u8]) -> Callee
        ensures { result ≡ (parts self.now).callee name.now };

    /// How many inputs a function has.
    fn input_count(&self, function: FunctionNo) -> usize
        ensures { result ≡ length ((parts self.now).function function).inputs };

    /// What an input takes, by its place among a function's inputs, counted from 0; none past the
    /// last one.
    fn input(&self, function: FunctionNo, at: usize) -> Option<Taken>
        ensures { result ≡ inputs.taken_at ((parts self.now).function function).inputs at };

    /// The place of the input with this name among a function's inputs.
    fn input_named(&self, function: FunctionNo, name: &[u8]) -> Option<usize>
        ensures { result ≡ inputs.place_of ((parts self.now).function function).inputs
            (raised_all name.now) };

    /// Whether a function declares a variable of this name.
    fn declares(&self, function: FunctionNo, name: &[u8]) -> bool
        ensures { result ≡ inputs.is_among ((parts self.now).function function).declared
            (raised_all name.now) };

    /// The type of a function's result; none where the declaration of the result holds a fault.
    fn result_type(&self, function: FunctionNo) -> Option<ValueType>
        ensures { result ≡ ((parts self.now).function function).result };
}
