// The texts of a call.
ghost use Rattle.std.specs.Prelude.{◌≡◌, ◌++◌, [], IfOk, OnOk, string_bytes, map, slice_index_or};
ghost use Rattle.std.specs.List.{flat_map};
ghost use Rattle.std.specs.Option.{option_map, option_and_then};
ghost use Rattle.unit_locations.specs.LocatedTable.{location_of, shown_location};
ghost use Rattle.apt_host.specs.CleanBuild.{reported_in};
ghost use Rattle.apt_host.specs.Report.{kind_text, escaped, location_text, message_text, message_line, message_lines, unread_line, first_lines, file_line, file_lines, errors_report};
ghost use Rattle.project_units.specs.Refusals.{BadConfig, BadStub, BadSource, DuplicateType, BadGenerated, ClaimBroken};
ghost use Rattle.apt_host.specs.RefusalLines.{IsLineOf, what_text, claim_text, bad_kind_text, place_text, breach_line, host_line, line_of, refusal_of};
ghost use Rattle.project_units.specs.Faults.{stop_of};
ghost use Rattle.project_reading.specs.Verdicts.{verdict, stopped, shown_place};
ghost use Rattle.apt_host.specs.Listed.{listed, summary_of, report_for};

use apt_base::{Claim, ElementRef, List, Name, NoMemory, What};
use apt_filer::Placed;
use frame_breaches::Breach;
use frame_forms::BadKind;
use project_reading::{Place, Status};
use project_units::Refusal;
use std::alloc::{AllocError, Global};
use tree_store::StoredFile;
use unit_locations::{LocatedTable, Location};
use wire_frames::Message;

/// What a report says of a run, beside the names of its processors and its files.
#[derive(Drop)]
pub struct Summary {
    /// How many children were started.
    pub started: u32,
    /// How many rounds there were, the last included.
    pub rounds: u32,
    /// How many errors were printed.
    pub errors: u64,
    /// How many warnings were printed, those of the closing lines included.
    pub warnings: u64,
    /// The messages, in the order of a report.
    pub messages: List<Placed>,
    /// The names of the sources that were created in the last round, ascending.
    pub unread: List<Name>,
    /// The units of the last round, by which the elements of the messages are located.
    pub table: LocatedTable,
}

// ---- messages

fn kind_text(kind: u8) -> &'static str
    ensures { result.now ≡ kind_text kind }
{
    match kind {
        0 => "error",
        1 => "warning",
        2 => "mandatory_warning",
        3 => "note",
        _ => "other",
    }
}

fn add_escaped(report: &mut Vec<u8>, text: &[u8]) -> Result<(), AllocError>
    ensures { OnOk result (report.new.items ≡ report.old.items ++ escaped text.now) }
{
    for byte in text {
        match *byte {
            b'\\' => report.extend_from_slice(b"\\\\")?,
            b'\n' => report.extend_from_slice(b"\\n")?,
            b'\r' => report.extend_from_slice(b"\\r")?,
            other => report.push(other)?,
        }
    }
    Ok(())
}

// The name of the processor with this number, counted from 0; a number that none has gives no text.
fn name_of(processors: &List<Name>, number: u16) -> &str
    ensures { result.now ≡ slice_index_or processors.now number [] }
{
    match processors.get(number as usize) {
        Some(name) => name.as_str(),
        None => "",
    }
}

// Where the element of a message is declared.
fn location_of<'a>(table: &'a LocatedTable, element: &Option<ElementRef>) -> Option<Location<'a>>
    ensures { option_map shown_location result ≡ option_and_then (location_of table.now) element.now }
{
    match element {
        Some(element) => table.location_of(element),
        None => None,
    }
}

// Adds the path and the line of an element that is declared somewhere.
fn add_location(
    alloc: Global,
    report: &mut Vec<u8>,
    at: Option<Location<'_>>,
) -> Result<(), AllocError>
    ensures { OnOk result (report.new.items ≡ report.old.items ++ location_text (option_map shown_location at.entry)) }
{
    let Some(at) = at else {
        return Ok(());
    };
    let path = at.path.as_str();
    let line = at.line;
    let text = format!(in alloc; "{path}:{line}: ")?;
    report.extend_from_slice(text.as_bytes())?;
    Ok(())
}

// Adds a message of the processor with this name.
fn add_text(
    alloc: Global,
    report: &mut Vec<u8>,
    processor: &str,
    at: Option<Location<'_>>,
    message: &Message,
) -> Result<(), AllocError>
    ensures { OnOk result (report.new.items
        ≡ report.old.items ++ message_text processor.now (option_map shown_location at.entry) message.now) }
{
    let kind = kind_text(message.kind);
    let head = format!(in alloc; "{kind}: ")?;
    report.extend_from_slice(head.as_bytes())?;
    add_location(alloc, report, at)?;
    let of = format!(in alloc; "[{processor}] ")?;
    report.extend_from_slice(of.as_bytes())?;
    add_escaped(report, message.text.as_str().as_bytes())?;
    report.push(b'\n')?;
    Ok(())
}

fn add_message(
    alloc: Global,
    report: &mut Vec<u8>,
    processors: &List<Name>,
    table: &LocatedTable,
    placed: &Placed,
) -> Result<(), AllocError>
    ensures { OnOk result (report.new.items
        ≡ report.old.items ++ message_line processors.now (reported_in table.now placed.now)) }
{
    let processor = name_of(processors, placed.processor);
    let at = location_of(table, &placed.message.element);
    add_text(alloc, report, processor, at, &placed.message)
}

#[tactic(auto, unfolding(crate::specs::Report::unread_line))]
fn add_unread(alloc: Global, report: &mut Vec<u8>, name: &Name) -> Result<(), AllocError>
    ensures { OnOk result (report.new.items ≡ report.old.items ++ unread_line name.now) }
{
    let name = name.as_str();
    let line = format!(in alloc;
        "warning: [host] type {name} was created in the last round and is not processed\n"
    )?;
    report.extend_from_slice(line.as_bytes())?;
    Ok(())
}

fn add_messages(
    alloc: Global,
    report: &mut Vec<u8>,
    processors: &List<Name>,
    table: &LocatedTable,
    messages: &[Placed],
) -> Result<(), AllocError>
    ensures { OnOk result (report.new.items
        ≡ report.old.items ++ message_lines processors.now (map (reported_in table.now) messages.now)) }
{
    for placed in messages {
        add_message(alloc, report, processors, table, placed)?;
    }
    Ok(())
}

fn add_closing_lines(alloc: Global, report: &mut Vec<u8>, unread: &[Name]) -> Result<(), AllocError>
    ensures { OnOk result (report.new.items ≡ report.old.items ++ flat_map unread_line unread.now) }
{
    for name in unread {
        add_unread(alloc, report, name)?;
    }
    Ok(())
}

/// The mode line, the messages and the closing lines.
fn told_lines(
    alloc: Global,
    processors: &List<Name>,
    summary: &Summary,
) -> Result<Vec<u8>, AllocError>
    ensures { IfOk result (λ text. text.items ≡ first_lines (summary_of processors.now summary.now)) }
{
    let started = summary.started;
    let mode = format!(in alloc; "mode: clean (Full), started {started}\n")?;
    let mut report = mode.into_bytes();
    add_messages(
        alloc,
        &mut report,
        processors,
        &summary.table,
        summary.messages.as_slice(),
    )?;
    add_closing_lines(alloc, &mut report, summary.unread.as_slice())?;
    Ok(report)
}

// ---- files and the end

fn add_file(alloc: Global, report: &mut Vec<u8>, file: &StoredFile) -> Result<(), AllocError>
    ensures { OnOk result (report.new.items ≡ report.old.items ++ file_line (listed file.now)) }
{
    let path = file.path.as_str();
    let length = file.length;
    let line = format!(in alloc; "file {path} {length}\n")?;
    report.extend_from_slice(line.as_bytes())?;
    Ok(())
}

/// The lines of the files, in order.
fn add_files(alloc: Global, report: &mut Vec<u8>, files: &[StoredFile]) -> Result<(), AllocError>
    ensures { OnOk result (report.new.items ≡ report.old.items ++ file_lines (map listed files.now)) }
{
    for file in files {
        add_file(alloc, report, file)?;
    }
    Ok(())
}

/// The report of a build that publishes these files, ascending by path.
pub fn report(
    alloc: Global,
    processors: &List<Name>,
    summary: &Summary,
    files: &[StoredFile],
) -> Result<Vec<u8>, NoMemory>
    ensures { IfOk result (λ all. all.items ≡ report_for (summary_of processors.now summary.now) files.now) }
{
    let mut report = told_lines(alloc, processors, summary)?;
    add_files(alloc, &mut report, files)?;
    let rounds = summary.rounds;
    let errors = summary.errors;
    let warnings = summary.warnings;
    let count = files.len();
    let line = format!(in alloc;
        "done: {rounds} rounds, {count} files, {errors} errors, {warnings} warnings\n"
    )?;
    report.extend_from_slice(line.as_bytes())?;
    Ok(report)
}

/// The report of a build in which an error was printed.
pub fn errors_report(
    alloc: Global,
    processors: &List<Name>,
    summary: &Summary,
) -> Result<Vec<u8>, NoMemory>
    ensures { IfOk result (λ text. text.items ≡ errors_report (summary_of processors.now summary.now)) }
{
    let mut report = told_lines(alloc, processors, summary)?;
    let rounds = summary.rounds;
    let errors = summary.errors;
    let warnings = summary.warnings;
    let line = format!(in alloc;
        "errors: {rounds} rounds, {errors} errors, {warnings} warnings\n"
    )?;
    report.extend_from_slice(line.as_bytes())?;
    Ok(report)
}

// The name of a limit.
fn what_text(what: What) -> &'static str
    ensures { result.now ≡ what_text what }
{
    match what {
        What::Files => "Files",
        What::FileBytes => "FileBytes",
        What::SourceBytes => "SourceBytes",
        What::StubBytes => "StubBytes",
        What::ConfigBytes => "ConfigBytes",
        What::Processors => "Processors",
        What::Types => "Types",
        What::Name => "Name",
        What::Children => "Children",
        What::Depth => "Depth",
        What::Frame => "Frame",
        What::Record => "Record",
        What::Script => "Script",
        What::Rounds => "Rounds",
    }
}

// What a processor declared of its claims.
fn claim_text(claim: Claim) -> &'static str
    ensures { result.now ≡ claim_text claim }
{
    match claim {
        Claim::Always => "always",
        Claim::Never => "never",
        Claim::Varies => "varies",
    }
}

// A place in a file of the configuration.
fn place_text(alloc: Global, place: &Place) -> Result<String, AllocError>
    ensures { IfOk result (λ text. string_bytes text ≡ place_text (shown_place place.now)) }
{
    match place {
        Place::Json => String::from_str(alloc, "json"),
        Place::Item(item) => String::from_str(alloc, item.as_str()),
        Place::Line(line) => format!(in alloc; "{line}"),
    }
}

fn config_line(alloc: Global, path: &str, place: &Place) -> Result<String, AllocError>
    ensures { IfOk result (λ text. string_bytes text ≡ line_of (BadConfig path.now (shown_place place.now))) }
{
    let place = place_text(alloc, place)?;
    let place = place.as_str();
    format!(in alloc; "refused: BadConfig({path}, {place})\n")
}

fn claim_line(
    alloc: Global,
    processor: &str,
    declared: Claim,
    said: bool,
) -> Result<String, AllocError>
    ensures { IfOk result (λ text. string_bytes text ≡ line_of (ClaimBroken processor.now declared said)) }
{
    let declared = claim_text(declared);
    format!(in alloc; "refused: ClaimBroken({processor}, {declared}, {said})\n")
}

fn bad_stub_line(alloc: Global, path: &str, place: u32) -> Result<String, AllocError>
    ensures { IfOk result (λ text. string_bytes text ≡ line_of (BadStub path.now place)) }
{
    format!(in alloc; "refused: BadStub({path}, {place})\n")
}

fn bad_source_line(alloc: Global, path: &str, place: u32) -> Result<String, AllocError>
    ensures { IfOk result (λ text. string_bytes text ≡ line_of (BadSource path.now place)) }
{
    format!(in alloc; "refused: BadSource({path}, {place})\n")
}

fn bad_generated_line(alloc: Global, path: &str, place: u32) -> Result<String, AllocError>
    ensures { IfOk result (λ text. string_bytes text ≡ line_of (BadGenerated path.now place)) }
{
    format!(in alloc; "refused: BadGenerated({path}, {place})\n")
}

fn duplicate_line(
    alloc: Global,
    name: &str,
    first: &str,
    second: &str,
) -> Result<String, AllocError>
    ensures { IfOk result (IsLineOf (DuplicateType name.now first.now second.now)) }
{
    format!(in alloc; "refused: DuplicateType({name}, {first}, {second})\n")
}

// What is wrong with a bad byte.
fn bad_kind_text(kind: BadKind) -> &'static str
    ensures { result.now ≡ bad_kind_text kind }
{
    match kind {
        BadKind::Length => "Length",
        BadKind::Tag => "Tag",
        BadKind::Field => "Field",
        BadKind::Pattern => "Pattern",
        BadKind::Rest => "Rest",
    }
}

// The line of a run whose child left the protocol.
fn child_line(alloc: Global, processor: &str, breach: Breach) -> Result<String, AllocError>
    ensures { IfOk result (λ text. string_bytes text ≡ breach_line processor.now breach) }
{
    match breach {
        Breach::Ended { got } => format!(in alloc; "refused: ChildEnded({processor}, {got})\n"),
        Breach::Bad { place, kind } => {
            let kind = bad_kind_text(kind);
            format!(in alloc; "refused: BadFrame({processor}, {place}, {kind})\n")
        }
        Breach::Wrong { tag } => format!(in alloc; "refused: WrongFrame({processor}, {tag})\n"),
    }
}

// The line of a child whose host left the protocol.
fn host_line(alloc: Global, breach: Breach) -> Result<String, AllocError>
    ensures { IfOk result (λ text. string_bytes text ≡ host_line breach) }
{
    match breach {
        Breach::Ended { got } => format!(in alloc; "refused: InputEnded({got})\n"),
        Breach::Bad { .. } | Breach::Wrong { .. } => child_line(alloc, "host", breach),
    }
}

// The line of what a run may come to.
fn run_line(alloc: Global, refusal: &Refusal) -> Result<String, AllocError>
    ensures { IfOk result (λ text. string_bytes text ≡ refusal_of (stopped (stop_of refusal.now))) }
{
    match refusal {
        Refusal::ChildFault { processor } => {
            let processor = processor.as_str();
            format!(in alloc; "refused: ChildFault({processor})\n")
        }
        Refusal::Breach { processor, breach } => { child_line(alloc, processor.as_str(), *breach) }
        Refusal::TooManyQuestions { processor, limit } => {
            let processor = processor.as_str();
            format!(in alloc; "refused: TooManyQuestions({processor}, {limit})\n")
        }
        Refusal::ClaimBroken {
            processor,
            declared,
            said,
        } => claim_line(alloc, processor.as_str(), *declared, *said),
        Refusal::BadGenerated { path, place } => bad_generated_line(alloc, path.as_str(), *place),
        Refusal::GeneratedDuplicate { name } => {
            let name = name.as_str();
            format!(in alloc; "refused: GeneratedDuplicate({name})\n")
        }
        Refusal::TooManyRounds => String::from_str(alloc, "refused: TooManyRounds(64)\n"),
        Refusal::TooLarge { what, limit } => {
            let what = what_text(*what);
            format!(in alloc; "refused: TooLarge({what}, {limit})\n")
        }
        Refusal::Memory => String::from_str(alloc, "refused: Memory\n"),
    }
}

/// The line of a refusal, where its command has lines. A build that ended with a report has none.
pub fn refusal(alloc: Global, status: &Status) -> Result<String, AllocError>
    ensures { IfOk result (λ text. string_bytes text ≡ refusal_of (verdict status.now)) }
{
    match status {
        Status::Done | Status::Errors { .. } => Ok(String::new(alloc)),
        Status::BadWords { at } => format!(in alloc; "refused: BadWords({at})\n"),
        Status::BadConfig { path, place } => config_line(alloc, path.as_str(), place),
        Status::UnknownProcessor { name } => {
            let name = name.as_str();
            format!(in alloc; "refused: UnknownProcessor({name})\n")
        }
        Status::BadStub { path, place } => bad_stub_line(alloc, path.as_str(), *place),
        Status::BadSource { path, place } => bad_source_line(alloc, path.as_str(), *place),
        Status::DuplicateType {
            name,
            first,
            second,
        } => duplicate_line(alloc, name.as_str(), first.as_str(), second.as_str()),
        Status::Refused(refusal) => run_line(alloc, refusal),
        Status::TreeFault => String::from_str(alloc, "refused: TreeFault\n"),
        Status::SinkFault => String::from_str(alloc, "refused: SinkFault\n"),
        Status::SourceFault => String::from_str(alloc, "refused: SourceFault\n"),
        Status::HostBreach { breach } => host_line(alloc, *breach),
        Status::Memory => String::from_str(alloc, "refused: Memory\n"),
    }
}
