// What makes the reports of the station.
ghost use Rattle.std.specs.Prelude.{◌≡◌, List, IfOk, OnErr};
ghost use Rattle.station_ports.specs.declared.lists.FileEntry.{FileEntry};
ghost use Rattle.station_ports.specs.declared.lists.Waiver.{Waiver};
ghost use Rattle.st_tree.specs.declared.settings.Settings.{Settings as SettingsOf};
ghost use Rattle.finding_spans.specs.declared.report.Report.{Report as ReportOf};

use finding_spans::Report;
use project_keeper::{FileList, WaiverList};
use st_tree::Settings;
use station_ports::outside::NoMemory;
use station_ports::steps::Steps;
use std::sync::ledger::Ledger;

/// Reports on files, waivers and settings. What it keeps from one report to the next plays no part in them.
pub trait Reviewer {
    /// This is the report on these.
    ghost reports: { List FileEntry → List Waiver → SettingsOf → ReportOf → Type 0 };

    /// There is one at most.
    ghost one: { (files : List FileEntry) (waivers : List Waiver) (settings : SettingsOf) (report other : ReportOf) →
        reports files waivers settings report → reports files waivers settings other → report ≡ other };

    /// The report on these files and waivers. After NoMemory the reviewer is as before.
    fn report<L: Ledger>(
        &mut self,
        files: &FileList,
        waivers: &WaiverList,
        settings: &Settings,
        steps: &mut Steps<L>,
    ) -> Result<Report, NoMemory>
        ensures report { IfOk result (λ report. reports files.now waivers.now settings.now report) }
        ensures refused { OnErr result (self.new ≡ self.old) };
}
