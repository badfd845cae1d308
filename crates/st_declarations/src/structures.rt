// Types that a user declares.

ghost use Rattle.std.specs.Prelude.{◌≡◌};
ghost use Rattle.token_grammar.specs.steps.Parsers.{Reads, view};
ghost use Rattle.st_declarations.specs.steps.Parse as spec;

use crate::array_specs::spec;
use crate::initial_values::optional_init;
use crate::lists::{Reader, each};
use st_expr::{identifier, name_list, node_at, or_drop};
use st_tree::{Fields, Shape, TypeDecl, Types};
use std::alloc::Global;
use token_grammar::{Cursor, ParseError, TokenKind};

/// Reads fields declared together: `names ":" spec [ ":=" init ] ";"`.
struct FieldsReader;

impl Reader<Fields> for FieldsReader {
    ghost use Rattle.st_declarations.specs.steps.Parse.{fields};

    ghost parser = { λ _. fields };

    ghost ready = { λ _. Unit {0} };

    #[tactic(auto, unfolding(crate::specs::steps::Parse::fields))]
    fn read(&self, alloc: Global, cursor: &mut Cursor<'_>) -> Result<Fields, ParseError> {
        let start = cursor.start();
        let names = name_list(alloc, cursor)?;
        or_drop!(cursor.take(TokenKind::Colon); names);
        let spec = or_drop!(spec(alloc, cursor); names);
        let init = or_drop!(optional_init(alloc, cursor); names, spec);
        or_drop!(cursor.take(TokenKind::Semicolon); names, spec, init);
        Ok(Fields {
            node: node_at(start, cursor.last),
            names,
            spec,
            init,
        })
    }
}

/// `STRUCT { fields } END_STRUCT`
#[tactic(auto, unfolding(crate::specs::steps::Parse::struct_shape))]
fn struct_shape(alloc: Global, cursor: &mut Cursor<'_>) -> Result<Shape, ParseError>
    ensures { Reads (spec.struct_shape (view cursor.old)) result (view cursor.new) }
{
    let start = cursor.start();
    cursor.take(TokenKind::Struct)?;
    let found = each(alloc, cursor, TokenKind::Name, &FieldsReader)?;
    or_drop!(cursor.take(TokenKind::EndStruct); found);
    Ok(Shape::Structure(node_at(start, cursor.last), found))
}

/// `spec | STRUCT { fields } END_STRUCT`
#[tactic(auto, unfolding(crate::specs::steps::Parse::shape))]
fn shape(alloc: Global, cursor: &mut Cursor<'_>) -> Result<Shape, ParseError>
    ensures { Reads (spec.shape (view cursor.old)) result (view cursor.new) }
{
    if cursor.sees(TokenKind::Struct) {
        struct_shape(alloc, cursor)
    } else {
        Ok(Shape::Spec(spec(alloc, cursor)?))
    }
}

/// Reads the declaration of a type: `name ":" shape [ ":=" init ] ";"`.
struct TypeDeclReader;

impl Reader<TypeDecl> for TypeDeclReader {
    ghost use Rattle.st_declarations.specs.steps.Parse.{type_decl};

    ghost parser = { λ _. type_decl };

    ghost ready = { λ _. Unit {0} };

    #[tactic(auto, unfolding(crate::specs::steps::Parse::type_decl))]
    fn read(&self, alloc: Global, cursor: &mut Cursor<'_>) -> Result<TypeDecl, ParseError> {
        let start = cursor.start();
        let name = identifier(alloc, cursor)?;
        or_drop!(cursor.take(TokenKind::Colon); name);
        let shape = or_drop!(shape(alloc, cursor); name);
        let init = or_drop!(optional_init(alloc, cursor); name, shape);
        or_drop!(cursor.take(TokenKind::Semicolon); name, shape, init);
        Ok(TypeDecl {
            node: node_at(start, cursor.last),
            name,
            shape,
            init,
        })
    }
}

/// `TYPE { name ":" shape [ ":=" init ] ";" } END_TYPE`
#[tactic(auto, unfolding(crate::specs::steps::Parse::types))]
pub fn types(alloc: Global, cursor: &mut Cursor<'_>) -> Result<Types, ParseError>
    ensures { Reads (spec.types (view cursor.old)) result (view cursor.new) }
{
    let start = cursor.start();
    cursor.take(TokenKind::Type)?;
    let decls = each(alloc, cursor, TokenKind::Name, &TypeDeclReader)?;
    or_drop!(cursor.take(TokenKind::EndType); decls);
    Ok(Types {
        node: node_at(start, cursor.last),
        decls,
    })
}
