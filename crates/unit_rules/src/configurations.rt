// Configurations and their resources.

ghost use Rattle.std.specs.Prelude.{◌≡◌, flat_map, map, drop};
ghost use Rattle.link_faults.specs.First.{after};
ghost use Rattle.expression_types.specs.Meanings.{meant};
ghost use Rattle.unit_rules.specs.Running as spec;
ghost use Rattle.unit_rules.specs.steps.Further as steps;

use crate::lines::note_lines;
use crate::noted::note_at;
use crate::tasks::note_tasks;
use expression_types::Meaning;
use link_faults::{Faults, LinkCode};
use project_declarations::{UnitRow, What};
use scope_names::Names;
use st_tree::{Config, Resource, Tasks};

#[tactic(auto, using(crate::proofs::Noting::after_append))]
fn note_running<M: Meaning>(
    meaning: &M,
    names: &Names<'_, What>,
    units: &[UnitRow<'_>],
    file: u16,
    tasks: &Tasks,
    faults: &mut Faults,
)
    ensures { faults.new ≡ after faults.old (spec.tasks_faults (meant (M.names meaning.now)
        (M.parts meaning.now)) (spec.outer names.now units.now) file tasks.now) }
{
    note_tasks(meaning, file, tasks.tasks.as_slice(), faults);
    note_lines(names, units, file, tasks.lines.as_slice(), faults);
}

fn note_resources<M: Meaning>(
    meaning: &M,
    names: &Names<'_, What>,
    units: &[UnitRow<'_>],
    file: u16,
    resources: &[Resource],
    faults: &mut Faults,
)
    ensures { faults.new ≡ after faults.old (flat_map (spec.resource_faults (meant
        (M.names meaning.now) (M.parts meaning.now)) (spec.outer names.now units.now) file)
        resources.now) }
{
    for resource in resources {
        note_running(meaning, names, units, file, &resource.tasks, faults);
    }
}

/// Resources that the configuration may not have.
fn note_spare(file: u16, resources: &[Resource], faults: &mut Faults)
    ensures { faults.new ≡ after faults.old (map (spec.further_resource file) resources.now) }
{
    for resource in resources {
        note_at(file, resource.node, LinkCode::OutOfProfile, faults);
    }
}

fn note_further(file: u16, resources: &[Resource], faults: &mut Faults)
    ensures { faults.new ≡ after faults.old
        (map (spec.further_resource file) (drop 1 resources.now)) }
{
    if resources.len() > 1 {
        note_spare(file, &resources[1..], faults);
    }
}

#[tactic(auto, using(crate::proofs::Noting::after_append))]
fn note_config<M: Meaning>(
    meaning: &M,
    names: &Names<'_, What>,
    units: &[UnitRow<'_>],
    file: u16,
    config: &Config,
    faults: &mut Faults,
)
    ensures { faults.new ≡ after faults.old (spec.config_faults (meant (M.names meaning.now)
        (M.parts meaning.now)) (spec.outer names.now units.now) file config.now) }
{
    let resources = config.resources.as_slice();
    note_further(file, resources, faults);
    note_resources(meaning, names, units, file, resources, faults);
    note_running(meaning, names, units, file, &config.tasks, faults);
}

/// Notes what is wrong within the configurations of a file.
pub(crate) fn note_configs<M: Meaning>(
    meaning: &M,
    names: &Names<'_, What>,
    units: &[UnitRow<'_>],
    file: u16,
    configs: &[Config],
    faults: &mut Faults,
)
    ensures { faults.new ≡ after faults.old (flat_map (spec.config_faults (meant
        (M.names meaning.now) (M.parts meaning.now)) (spec.outer names.now units.now) file)
        configs.now) }
{
    for config in configs {
        note_config(meaning, names, units, file, config, faults);
    }
}

/// Configurations that the project may not have.
fn note_spare_configs(file: u16, configs: &[Config], faults: &mut Faults)
    ensures { faults.new ≡ after faults.old (map (spec.further_config file) configs.now) }
{
    for config in configs {
        note_at(file, config.name.node, LinkCode::Twice, faults);
    }
}

/// Notes each configuration of a file but the project's first, and tells whether there was one, in the
/// files before or in this one.
pub(crate) fn note_further_configs(
    file: u16,
    any: bool,
    configs: &[Config],
    faults: &mut Faults,
) -> bool
    ensures noted { faults.new ≡ after faults.old (steps.behind any
        (map (spec.further_config file) configs.now)) }
    ensures any { result ≡ steps.any_of any (map (spec.further_config file) configs.now) }
{
    match configs {
        [] => any,
        [_, rest @ ..] => {
            let spare = if any { configs } else { rest };
            note_spare_configs(file, spare, faults);
            true
        },
    }
}
