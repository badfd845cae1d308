// The configurations of the files of a project.

ghost use Rattle.std.specs.Prelude.{◌≡◌, ◌<◌, ◌≤◌, length, drop, OnOk, OnErr};
ghost use Rattle.link_faults.specs.First.{after};
ghost use Rattle.expression_types.specs.Meanings.{meant};
ghost use Rattle.project_declarations.specs.Named.{each_from};
ghost use Rattle.project_declarations.specs.Declarations.{joined};
ghost use Rattle.unit_rules.specs.Running as spec;

use crate::configurations::{note_configs, note_further_configs};
use expression_types::Meaning;
use link_faults::Faults;
use project_declarations::{UnitRow, What};
use scope_names::Names;
use st_tree::SourceTree;
use station_ports::outside::NoMemory;

/// The most files whose places have room in sites.
const MAX_FILES: usize = 65_536;

fn file_number(place: usize) -> u16
    requires { place < 65536 }
    ensures { result ≡ place }
{
    place as u16
}

fn note_further(files: &[SourceTree], faults: &mut Faults)
    requires { length files.now ≤ 65536 }
    ensures { faults.new ≡ after faults.old
        (drop 1 (joined (each_from spec.further_configs 0 files.now))) }
{
    let mut any = false;
    for (place, tree) in files.iter().enumerate() {
        let file = file_number(place);
        any = note_further_configs(file, any, tree.config.as_slice(), faults);
    }
}

fn note_all<M: Meaning>(
    meaning: &M,
    names: &Names<'_, What>,
    units: &[UnitRow<'_>],
    files: &[SourceTree],
    faults: &mut Faults,
)
    requires { length files.now ≤ 65536 }
    ensures { faults.new ≡ after faults.old (joined (each_from (spec.configs_faults (meant
        (M.names meaning.now) (M.parts meaning.now)) (spec.outer names.now units.now)) 0
        files.now)) }
{
    for (place, tree) in files.iter().enumerate() {
        let file = file_number(place);
        note_configs(meaning, names, units, file, tree.config.as_slice(), faults);
    }
}

/// Notes the first fault of the configurations of files, which stand in the order of the project: a
/// second configuration or resource, parameters of tasks, and program lines. The names and units are
/// those of the files, and the meaning is that of names outside units. Takes time linear in what the
/// configurations hold, with two searches by halves for each line. NoMemory where there are more files
/// than the 65,536 whose places sites have room for, and then nothing is noted.
#[tactic(auto, using(crate::proofs::Noting::after_append))]
pub fn note_configurations<M: Meaning>(
    meaning: &M,
    names: &Names<'_, What>,
    units: &[UnitRow<'_>],
    files: &[SourceTree],
    faults: &mut Faults,
) -> Result<(), NoMemory>
    ensures noted { OnOk result (faults.new ≡ after faults.old (spec.configurations_faults (meant
        (M.names meaning.now) (M.parts meaning.now)) (spec.outer names.now units.now)
        files.now)) }
    ensures room { OnErr result (65536 < length files.now) }
{
    if files.len() > MAX_FILES {
        return Err(NoMemory);
    }
    note_further(files, faults);
    note_all(meaning, names, units, files, faults);
    Ok(())
}
