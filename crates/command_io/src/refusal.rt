//! What is refused, with its number and its text.
ghost use Rattle.std.specs.Prelude.{◌≡◌, IfOk, string_bytes};
ghost use Rattle.command_io.specs.Refusals.{number_of, rewrite_number, turn_number, undo_number, input_word, word_of, rewrite_word, name_of, list_name, elf_name, start_name, turn_name, emit_name, script_name, report_name, runner_name, rewrite_name, undo_name, details_of, list_details, entry_details, start_details, turn_details, emit_details, script_details, report_details, runner_details, rewrite_details, undo_details, refusal_text, TellsNumber, load_name, load_details, settle_number, settle_word, settle_name, settle_details, unsettle_number, unsettle_name};
ghost use Rattle.command_io.specs.Endings.{refusal_of};

use crate::ends::Input;
use elf_emit::emit::EmitError;
use elf_read::refusal::ElfError;
use image_step::error::ScriptError;
use image_step::runner_error::RunnerError;
use list_text::refusal::ListError;
use loader_form::error::LoadError;
use patch_report::error::ReportError;
use rewrite_core::rewrite::RewriteError;
use settle::error::{SettleError, UnsettleError};
use site_turns::error::TurnError;
use start_entries::refusal::StartError;
use std::alloc::{AllocError, Global};
use unpatch::error::UnpatchError;

/// What is refused, and why.
#[derive(Drop)]
pub enum Refusal {
    /// An input has more bytes than are read.
    TooLong(Input),
    /// A list breaks a rule.
    BadList(Input, ListError),
    /// WORLD is no script.
    BadScript(ScriptError),
    /// REPORT is no report.
    BadReport(ReportError),
    /// A file can't be loaded.
    BadFile(Input, ElfError),
    /// A start can't be listed.
    BadStart(StartError),
    /// A region of the script meets the file's image.
    Meets(RunnerError),
    /// The inputs can't be rewritten.
    Rewrite(RewriteError),
    /// The patch can't be undone.
    Undo(UnpatchError),
    /// The stub of the loader form can't be laid.
    Load(LoadError),
    /// The program can't be settled.
    Settle(SettleError),
    /// The file isn't a settled one.
    Unsettle(UnsettleError),
}

impl Refusal {
    /// The refusal's number; want of memory has none.
    pub fn number(&self) -> Option<u32>
        ensures { result ≡ number_of (refusal_of self.now) }
    {
        match self {
            Refusal::TooLong(_) => Some(20),
            Refusal::BadList(_, error) => error.number(),
            Refusal::BadScript(error) => error.number(),
            Refusal::BadReport(error) => error.number(),
            Refusal::BadFile(_, error) => error.number(),
            Refusal::BadStart(error) => error.number(),
            Refusal::Meets(error) => error.number(),
            Refusal::Rewrite(error) => rewrite_number(error),
            Refusal::Undo(error) => undo_number(error),
            Refusal::Load(error) => error.number(),
            Refusal::Settle(error) => settle_number(error),
            Refusal::Unsettle(error) => unsettle_number(error),
        }
    }

    /// The line that is printed: what is refused, the refusal's number and name, and the details.
    #[tactic(auto, unfolding(crate::specs::Refusals::refusal_text))]
    pub fn line(&self, alloc: Global) -> Result<String, AllocError>
        ensures text { IfOk result (λ line. string_bytes line
            ≡ refusal_text (refusal_of self.now)) }
        ensures number { IfOk result (λ line. TellsNumber (refusal_of self.now)
            (string_bytes line)) }
    {
        let Some(number) = self.number() else {
            return Err(AllocError);
        };
        let word = self.word();
        let name = self.name();
        let details = self.details(alloc)?;
        format!(in alloc; "refused {word} {number} {name}{details}\n")
    }

    /// What is refused, in one word.
    fn word(&self) -> &'static str
        ensures { result.now ≡ word_of (refusal_of self.now) }
    {
        match self {
            Refusal::TooLong(which) | Refusal::BadList(which, _) | Refusal::BadFile(which, _) =>
                input_word(*which),
            Refusal::BadScript(_) | Refusal::Meets(_) => "WORLD",
            Refusal::BadReport(_) => "REPORT",
            Refusal::BadStart(_) => "INSTR",
            Refusal::Rewrite(error) => rewrite_word(error),
            Refusal::Undo(_) => "UNPATCH",
            Refusal::Load(_) => "LOADER",
            Refusal::Settle(error) => settle_word(error),
            Refusal::Unsettle(_) => "UNSETTLE",
        }
    }

    fn name(&self) -> &'static str
        ensures { result.now ≡ name_of (refusal_of self.now) }
    {
        match self {
            Refusal::TooLong(_) => "TooLong",
            Refusal::BadList(_, error) => list_name(error),
            Refusal::BadScript(error) => script_name(error),
            Refusal::BadReport(error) => report_name(error),
            Refusal::BadFile(_, error) => elf_name(error),
            Refusal::BadStart(error) => start_name(error),
            Refusal::Meets(error) => runner_name(error),
            Refusal::Rewrite(error) => rewrite_name(error),
            Refusal::Undo(error) => undo_name(error),
            Refusal::Load(error) => load_name(error),
            Refusal::Settle(error) => settle_name(error),
            Refusal::Unsettle(error) => unsettle_name(error),
        }
    }

    /// The limit of a file's bytes, or what the error tells, each behind a blank.
    fn details(&self, alloc: Global) -> Result<String, AllocError>
        ensures { IfOk result (λ text. string_bytes text ≡ details_of (refusal_of self.now)) }
    {
        match self {
            Refusal::TooLong(_) => String::from_str(alloc, " 268435456"),
            Refusal::BadList(_, error) => list_details(alloc, error),
            Refusal::BadScript(error) => script_details(alloc, error),
            Refusal::BadReport(error) => report_details(alloc, error),
            Refusal::BadFile(_, error) => entry_details(alloc, error.entry()),
            Refusal::BadStart(error) => start_details(alloc, error),
            Refusal::Meets(error) => runner_details(alloc, error),
            Refusal::Rewrite(error) => rewrite_details(alloc, error),
            Refusal::Undo(error) => undo_details(alloc, error),
            Refusal::Load(error) => load_details(alloc, error),
            Refusal::Settle(error) => settle_details(alloc, error),
            Refusal::Unsettle(_) => Ok(String::new(alloc)),
        }
    }
}

fn rewrite_number(error: &RewriteError) -> Option<u32>
    ensures { result ≡ rewrite_number error.now }
{
    match error {
        RewriteError::Elf(error) => error.number(),
        RewriteError::Start(error) => error.number(),
        RewriteError::Turn(error) => turn_number(error),
        RewriteError::Emit(error) => error.number(),
        RewriteError::Memory => None,
    }
}

fn turn_number(error: &TurnError) -> Option<u32>
    ensures { result ≡ turn_number error.now }
{
    match error {
        TurnError::NotListed { .. } => Some(1),
        TurnError::NoPrivate { .. } => Some(2),
        TurnError::Memory => None,
    }
}

fn undo_number(error: &UnpatchError) -> Option<u32>
    ensures { result ≡ undo_number error.now }
{
    match error {
        UnpatchError::NoOrigin => Some(1),
        UnpatchError::OriginOutside => Some(2),
        UnpatchError::BytesDiffer { .. } => Some(3),
        UnpatchError::Memory => None,
    }
}

fn settle_number(error: &SettleError) -> Option<u32>
    ensures { result ≡ settle_number error.now }
{
    match error {
        SettleError::File(error) | SettleError::Settled(error) => error.number(),
        SettleError::NotDyn => Some(1),
        SettleError::TooManyEntries { .. } => Some(2),
        SettleError::SegmentOutside { .. } => Some(3),
        SettleError::BaseUnaligned { .. } => Some(4),
        SettleError::TableNotLoaded => Some(5),
        SettleError::EntryOutside => Some(6),
        SettleError::Memory => None,
    }
}

fn unsettle_number(error: &UnsettleError) -> Option<u32>
    ensures { result ≡ unsettle_number error.now }
{
    match error {
        UnsettleError::NotSettled => Some(1),
        UnsettleError::Memory => None,
    }
}

/// The name of an input as the command's form has it.
fn input_word(which: Input) -> &'static str
    ensures { result.now ≡ input_word which }
{
    match which {
        Input::File => "FILE",
        Input::Starts => "STARTS",
        Input::Sites => "SITES",
        Input::Out => "OUT",
        Input::Report => "REPORT",
        Input::World => "WORLD",
    }
}

fn rewrite_word(error: &RewriteError) -> &'static str
    ensures { result.now ≡ rewrite_word error.now }
{
    match error {
        RewriteError::Elf(_) => "FILE",
        RewriteError::Start(_) => "INSTR",
        RewriteError::Turn(_) => "PLAN",
        RewriteError::Emit(_) => "EMIT",
        RewriteError::Memory => "",
    }
}

fn settle_word(error: &SettleError) -> &'static str
    ensures { result.now ≡ settle_word error.now }
{
    match error {
        SettleError::File(_) => "FILE",
        SettleError::Settled(_) => "SETTLED",
        SettleError::Memory => "",
        _ => "SETTLE",
    }
}

fn list_name(error: &ListError) -> &'static str
    ensures { result.now ≡ list_name error.now }
{
    match error {
        ListError::BadLine { .. } => "BadLine",
        ListError::NotAscending { .. } => "NotAscending",
        ListError::TooMany { .. } => "TooMany",
        ListError::Memory => "",
    }
}

fn elf_name(error: &ElfError) -> &'static str
    ensures { result.now ≡ elf_name error.now }
{
    match error {
        ElfError::TooShort => "TooShort",
        ElfError::BadMagic => "BadMagic",
        ElfError::NotClass64 => "NotClass64",
        ElfError::NotLittle => "NotLittle",
        ElfError::NotExec => "NotExec",
        ElfError::NotX86 => "NotX86",
        ElfError::BadPhentSize => "BadPhentSize",
        ElfError::TableOutside => "TableOutside",
        ElfError::Dynamic { .. } => "Dynamic",
        ElfError::SegmentOutside { .. } => "SegmentOutside",
        ElfError::SizeOrder { .. } => "SizeOrder",
        ElfError::Misaligned { .. } => "Misaligned",
        ElfError::AddressHigh { .. } => "AddressHigh",
        ElfError::AddressLow { .. } => "AddressLow",
        ElfError::LoadOrder { .. } => "LoadOrder",
        ElfError::Memory => "",
    }
}

fn start_name(error: &StartError) -> &'static str
    ensures { result.now ≡ start_name error.now }
{
    match error {
        StartError::NotExecutable { .. } => "NotExecutable",
        StartError::Memory => "",
    }
}

fn turn_name(error: &TurnError) -> &'static str
    ensures { result.now ≡ turn_name error.now }
{
    match error {
        TurnError::NotListed { .. } => "NotListed",
        TurnError::NoPrivate { .. } => "NoPrivate",
        TurnError::Memory => "",
    }
}

fn emit_name(error: &EmitError) -> &'static str
    ensures { result.now ≡ emit_name error.now }
{
    match error {
        EmitError::TooManySegments { .. } => "TooManySegments",
        EmitError::WriteFault | EmitError::Memory => "",
    }
}

fn load_name(error: &LoadError) -> &'static str
    ensures { result.now ≡ load_name error.now }
{
    match error {
        LoadError::TooManyRuns { .. } => "TooManyRuns",
        LoadError::NoLoader { .. } => "NoLoader",
        LoadError::Memory => "",
    }
}

fn script_name(error: &ScriptError) -> &'static str
    ensures { result.now ≡ script_name error.now }
{
    match error {
        ScriptError::BadScript { .. } => "BadScript",
        ScriptError::Memory => "",
    }
}

fn report_name(error: &ReportError) -> &'static str
    ensures { result.now ≡ report_name error.now }
{
    match error {
        ReportError::BadReport { .. } => "BadReport",
        ReportError::BadVersion { .. } => "BadVersion",
        ReportError::Memory => "",
    }
}

fn runner_name(error: &RunnerError) -> &'static str
    ensures { result.now ≡ runner_name error.now }
{
    match error {
        RunnerError::RegionMeets { .. } => "RegionMeets",
        RunnerError::Memory => "",
    }
}

fn rewrite_name(error: &RewriteError) -> &'static str
    ensures { result.now ≡ rewrite_name error.now }
{
    match error {
        RewriteError::Elf(error) => elf_name(error),
        RewriteError::Start(error) => start_name(error),
        RewriteError::Turn(error) => turn_name(error),
        RewriteError::Emit(error) => emit_name(error),
        RewriteError::Memory => "",
    }
}

fn undo_name(error: &UnpatchError) -> &'static str
    ensures { result.now ≡ undo_name error.now }
{
    match error {
        UnpatchError::NoOrigin => "NoOrigin",
        UnpatchError::OriginOutside => "OriginOutside",
        UnpatchError::BytesDiffer { .. } => "BytesDiffer",
        UnpatchError::Memory => "",
    }
}

fn settle_name(error: &SettleError) -> &'static str
    ensures { result.now ≡ settle_name error.now }
{
    match error {
        SettleError::File(error) | SettleError::Settled(error) => elf_name(error),
        SettleError::NotDyn => "NotDyn",
        SettleError::TooManyEntries { .. } => "TooManyEntries",
        SettleError::SegmentOutside { .. } => "SegmentOutside",
        SettleError::BaseUnaligned { .. } => "BaseUnaligned",
        SettleError::TableNotLoaded => "TableNotLoaded",
        SettleError::EntryOutside => "EntryOutside",
        SettleError::Memory => "",
    }
}

fn unsettle_name(error: &UnsettleError) -> &'static str
    ensures { result.now ≡ unsettle_name error.now }
{
    match error {
        UnsettleError::NotSettled => "NotSettled",
        UnsettleError::Memory => "",
    }
}

/// The line, or the most lines that a list may have.
fn list_details(alloc: Global, error: &ListError) -> Result<String, AllocError>
    ensures { IfOk result (λ text. string_bytes text ≡ list_details error.now) }
{
    match error {
        ListError::BadLine { line } => format!(in alloc; " {line}"),
        ListError::NotAscending { line } => format!(in alloc; " {line}"),
        ListError::TooMany { limit } => format!(in alloc; " {limit}"),
        ListError::Memory => Ok(String::new(alloc)),
    }
}

/// The index of the entry that breaks the rule.
fn entry_details(alloc: Global, entry: Option<u32>) -> Result<String, AllocError>
    ensures { IfOk result (λ text. string_bytes text ≡ entry_details entry) }
{
    match entry {
        None => Ok(String::new(alloc)),
        Some(entry) => format!(in alloc; " {entry}"),
    }
}

/// The addresses.
#[tactic(auto, unfolding(patch_report::specs::Spelling::hex8))]
fn start_details(alloc: Global, error: &StartError) -> Result<String, AllocError>
    ensures { IfOk result (λ text. string_bytes text ≡ start_details error.now) }
{
    match error {
        StartError::NotExecutable { addr } => {
            let addr = hex::encode(alloc, addr.to_be_bytes())?;
            format!(in alloc; " {addr}")
        }
        StartError::Memory => Ok(String::new(alloc)),
    }
}

/// The address of the site, or the number of pages.
#[tactic(auto, unfolding(patch_report::specs::Spelling::hex8))]
fn turn_details(alloc: Global, error: &TurnError) -> Result<String, AllocError>
    ensures { IfOk result (λ text. string_bytes text ≡ turn_details error.now) }
{
    match error {
        TurnError::NotListed { site } => {
            let site = hex::encode(alloc, site.to_be_bytes())?;
            format!(in alloc; " {site}")
        }
        TurnError::NoPrivate { pages } => format!(in alloc; " {pages}"),
        TurnError::Memory => Ok(String::new(alloc)),
    }
}

/// The number of entries.
fn emit_details(alloc: Global, error: &EmitError) -> Result<String, AllocError>
    ensures { IfOk result (λ text. string_bytes text ≡ emit_details error.now) }
{
    match error {
        EmitError::TooManySegments { count } => format!(in alloc; " {count}"),
        EmitError::WriteFault | EmitError::Memory => Ok(String::new(alloc)),
    }
}

/// The number of runs, or of pages.
fn load_details(alloc: Global, error: &LoadError) -> Result<String, AllocError>
    ensures { IfOk result (λ text. string_bytes text ≡ load_details error.now) }
{
    match error {
        LoadError::TooManyRuns { count } => format!(in alloc; " {count}"),
        LoadError::NoLoader { pages } => format!(in alloc; " {pages}"),
        LoadError::Memory => Ok(String::new(alloc)),
    }
}

/// The line.
fn script_details(alloc: Global, error: &ScriptError) -> Result<String, AllocError>
    ensures { IfOk result (λ text. string_bytes text ≡ script_details error.now) }
{
    match error {
        ScriptError::BadScript { line } => format!(in alloc; " {line}"),
        ScriptError::Memory => Ok(String::new(alloc)),
    }
}

/// The line.
fn report_details(alloc: Global, error: &ReportError) -> Result<String, AllocError>
    ensures { IfOk result (λ text. string_bytes text ≡ report_details error.now) }
{
    match error {
        ReportError::BadReport { line } => format!(in alloc; " {line}"),
        ReportError::BadVersion { line } => format!(in alloc; " {line}"),
        ReportError::Memory => Ok(String::new(alloc)),
    }
}

/// The address at which the region begins.
#[tactic(auto, unfolding(image_step::specs::Spelling::hex16))]
fn runner_details(alloc: Global, error: &RunnerError) -> Result<String, AllocError>
    ensures { IfOk result (λ text. string_bytes text ≡ runner_details error.now) }
{
    match error {
        RunnerError::RegionMeets { lo } => {
            let lo = hex::encode(alloc, lo.to_be_bytes())?;
            format!(in alloc; " {lo}")
        }
        RunnerError::Memory => Ok(String::new(alloc)),
    }
}

fn rewrite_details(alloc: Global, error: &RewriteError) -> Result<String, AllocError>
    ensures { IfOk result (λ text. string_bytes text ≡ rewrite_details error.now) }
{
    match error {
        RewriteError::Elf(error) => entry_details(alloc, error.entry()),
        RewriteError::Start(error) => start_details(alloc, error),
        RewriteError::Turn(error) => turn_details(alloc, error),
        RewriteError::Emit(error) => emit_details(alloc, error),
        RewriteError::Memory => Ok(String::new(alloc)),
    }
}

/// The address of the byte.
#[tactic(auto, unfolding(patch_report::specs::Spelling::hex8))]
fn undo_details(alloc: Global, error: &UnpatchError) -> Result<String, AllocError>
    ensures { IfOk result (λ text. string_bytes text ≡ undo_details error.now) }
{
    match error {
        UnpatchError::BytesDiffer { addr } => {
            let addr = hex::encode(alloc, addr.to_be_bytes())?;
            format!(in alloc; " {addr}")
        }
        UnpatchError::NoOrigin | UnpatchError::OriginOutside | UnpatchError::Memory => Ok(
            String::new(alloc),
        ),
    }
}

/// The index of an entry, the number of entries, or an alignment.
#[tactic(auto, unfolding(image_step::specs::Spelling::hex16))]
fn settle_details(alloc: Global, error: &SettleError) -> Result<String, AllocError>
    ensures { IfOk result (λ text. string_bytes text ≡ settle_details error.now) }
{
    match error {
        SettleError::File(error) | SettleError::Settled(error) => entry_details(
            alloc,
            error.entry(),
        ),
        SettleError::TooManyEntries { count } => format!(in alloc; " {count}"),
        SettleError::SegmentOutside { entry } => format!(in alloc; " {entry}"),
        SettleError::BaseUnaligned { align } => {
            let align = hex::encode(alloc, align.to_be_bytes())?;
            format!(in alloc; " {align}")
        }
        SettleError::NotDyn
        | SettleError::TableNotLoaded
        | SettleError::EntryOutside
        | SettleError::Memory => Ok(String::new(alloc)),
    }
}
