// The enumerations that types are by how they are written.

ghost use Rattle.std.specs.Prelude.{◌≡◌, Some, slice_get};
ghost use Rattle.project_declarations.specs.Rows.{bare_decl};
ghost use Rattle.declared_names.specs.TypeValues as spec;
ghost use Rattle.declared_names.specs.Tables.{project_in};

use crate::base::number_there;
use crate::project::Project;
use declaration_order::type_named;
use project_declarations::{DeclRow, Source};
use st_tree::{Shape, Site, Spec, TypeName};

/// What a type is by how it is written: an enumeration by its number, another type by the number of its
/// declaration, or nothing of both.
#[derive(Clone, Copy)]
pub(crate) enum WrittenType {
    Listed(Option<usize>),
    Named(Option<usize>),
    Neither,
}

fn in_spec(project: &Project<'_>, file: u16, written: &Spec) -> WrittenType
    ensures { result ≡ spec.in_spec (project_in project.now) file written.now }
{
    match written {
        Spec::Enumeration(node, _) => WrittenType::Listed(
            project.enumerations.number(Site {
                file,
                node: node.number,
            }),
        ),
        Spec::Type(_, TypeName::Named(name), None) => {
            let site = type_named(&project.names, name.name.bytes());
            WrittenType::Named(number_there(project, site))
        },
        _ => WrittenType::Neither,
    }
}

fn in_source(project: &Project<'_>, row: &DeclRow<'_>) -> WrittenType
    ensures { result ≡ spec.in_declaration (project_in project.now) (Some (bare_decl row.now)) }
{
    match row.source {
        Source::Type(decl) => match &decl.shape {
            Shape::Spec(written) => in_spec(project, row.file, written),
            Shape::Structure(_, _) => WrittenType::Neither,
        },
        Source::Variables(_) => WrittenType::Neither,
        Source::Result(_) => WrittenType::Neither,
    }
}

fn written_at(project: &Project<'_>, number: usize) -> WrittenType
    ensures { result ≡ spec.in_declaration (project_in project.now)
        (slice_get (project_in project.now).decls number) }
{
    match project.table.rows().get(number) {
        None => WrittenType::Neither,
        Some(row) => in_source(project, row),
    }
}

/// The enumeration that the type of a number is, by its name or by names of types alone.
pub(crate) fn written_enumeration(project: &Project<'_>, number: usize) -> Option<usize>
    ensures { result ≡ spec.written_enumeration (project_in project.now) number }
{
    let mut left = project.table.rows().len();
    let mut number = number;
    while left > 0 {
        left -= 1;
        match written_at(project, number) {
            WrittenType::Listed(enumeration) => return enumeration,
            WrittenType::Named(Some(next)) => number = next,
            WrittenType::Named(None) => return None,
            WrittenType::Neither => return None,
        }
    }
    None
}
