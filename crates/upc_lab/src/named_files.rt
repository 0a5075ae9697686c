//! The files that the words name: the setup script of `police`, `forward` or `explain` and the rules that it names, the old text of
//! `differ`, and the rules of `fit`.

ghost use Rattle.std.specs.Prelude.{◌≡◌, ◌⊎◌, IfErr, IfOk, IfSome, IsOkAnd, None, []};
ghost use Rattle.std.specs.Path.{path_with_file_name};
ghost use Rattle.cmd_setups.specs.FilesRead.{AreTextsForFiles, IsTextForFile, files_read, octets_of_name, octets_of_names};
ghost use Rattle.cmd_setups.specs.SharedTexts.{octets_of_text, octets_of_texts};
ghost use Rattle.upc_lab.specs.NamedFiles.{IsUnreadable, IsUnreadableSetup, IsUnreadableShown, old_name, fit_rules_name, setup_name, unreadable_line, unreadable_message};

use crate::file_names::{add_shown_name, name_given};
use captures::Tick;
use cmd_options::{Asked, in_words};
use cmd_setups::{SharedText, files_read, take_tick};
use std::alloc::{AllocError, Global};
use std::collections::BTreeMap;
use std::fs::File;
use std::io::Read;
use std::path::Path;
use std::rt::Files;
use std::{io, str};
use text_command_line::{CommandLine, Stop};

/// The maximum number of octets of a text of rules, or of one with a program.
const MOST_RULES_OCTETS: u64 = 1048576;

/// The maximum number of lines of a script.
const MOST_LINES: usize = 1000000;

/// The maximum number of octets of a line.
const MOST_LINE_OCTETS: usize = 70000;

/// How many octets of a script are read at a time.
const PART: u64 = 65536;

/// The octets of the files that the words name.
#[derive(Drop)]
pub struct NamedFiles {
    /// The octets of the setup script, as far as they were read, without the tick that it names.
    pub script: Vec<u8>,
    /// The tick that the setup script names, if it names one.
    pub tick: Option<Tick>,
    /// The octets of the file of rules that each line `rules NAME` of the script names, in order. Lines that name the same file share them.
    pub rules: Vec<SharedText>,
    /// The octets of the text that is no setup script, as far as they were read: the old text of `differ`, or the rules of `fit`.
    pub other_text: Vec<u8>,
}

impl NamedFiles {
    /// Returns the files of words that name none.
    fn none(alloc: Global) -> NamedFiles
        ensures script { result.script.items ≡ [] }
        ensures rules { result.rules.items ≡ [] }
        ensures other_text { result.other_text.items ≡ [] }
    {
        NamedFiles {
            script: Vec::new(alloc),
            tick: None,
            rules: Vec::new(alloc),
            other_text: Vec::new(alloc),
        }
    }
}

/// Why a file could not be read.
#[derive(Drop)]
pub struct Unreadable {
    /// The reason, in the words of the system.
    pub reason: Vec<u8>,
    /// The message with this reason, or nothing if no allocation was left for it.
    pub line: Vec<u8>,
}

impl Unreadable {
    /// Makes the message for the file with this name, with a reason. It is empty if there is no reason or an allocation fails.
    fn new(alloc: Global, name: &[u8], reason: Vec<u8>) -> Unreadable
        ensures { IsUnreadable name.now result }
    {
        let line = line_for(alloc, name, &reason);
        Unreadable { reason, line }
    }

    /// Makes the message for a file whose name isn't UTF-8. Names of files are UTF-8 in the library that opens them.
    fn not_utf8(alloc: Global, name: &[u8]) -> Unreadable
        ensures { IsUnreadable name.now result }
    {
        match Vec::from_slice(alloc, b"the name of a file must be UTF-8") {
            Ok(reason) => Unreadable::new(alloc, name, reason),
            Err(_) => Unreadable::without_reason(alloc),
        }
    }

    /// Makes the message without a name and a reason.
    fn without_reason(alloc: Global) -> Unreadable
        ensures { result.line.items ≡ [] }
    {
        Unreadable {
            reason: Vec::new(alloc),
            line: Vec::new(alloc),
        }
    }

    /// Returns the message. Without a reason it doesn't name the file.
    pub fn message(&self) -> &[u8]
        ensures { result.now ≡ unreadable_message self.now }
    {
        if self.line.is_empty() {
            b"upc-lab: cannot read a file that it was given\n"
        } else {
            &self.line
        }
    }
}

/// Returns the message with a reason.
#[tactic(auto, using(std::proofs::lemmas::List::append_assoc))]
fn unreadable_line(alloc: Global, name: &[u8], reason: &[u8]) -> Result<Vec<u8>, AllocError>
    ensures { IfOk result (λ line. line.items ≡ unreadable_line name.now reason.now) }
{
    let mut line = Vec::new(alloc);
    line.extend_from_slice(b"upc-lab: cannot read ")?;
    add_shown_name(alloc, &mut line, name)?;
    line.extend_from_slice(b": ")?;
    line.extend_from_slice(reason)?;
    line.push(b'\n')?;
    Ok(line)
}

/// Returns the message with a reason. It is empty if there is no reason or an allocation fails.
fn line_for(alloc: Global, name: &[u8], reason: &[u8]) -> Vec<u8>
    ensures { (result.items ≡ []) ⊎ (result.items ≡ unreadable_line name.now reason.now) }
{
    if reason.is_empty() {
        return Vec::new(alloc);
    }
    match unreadable_line(alloc, name, reason) {
        Ok(line) => line,
        Err(_) => Vec::new(alloc),
    }
}

/// How far a script was read.
#[derive(Drop)]
struct Extent {
    /// How many lines ended.
    lines: usize,
    /// How many octets came after them.
    octets: usize,
}

impl Extent {
    /// Returns whether a line of the script is over the limits. No octet after it matters.
    fn is_over(&self) -> bool {
        self.octets > MOST_LINE_OCTETS || (self.octets > 0 && self.lines >= MOST_LINES)
    }

    /// Counts the octets that were read next.
    fn add(&mut self, octets: &[u8]) {
        let mut left = octets;
        while let [octet, rest @ ..] = left {
            if self.is_over() {
                return;
            }
            if *octet == b'\n' {
                self.lines = self.lines.saturating_add(1);
                self.octets = 0;
            } else {
                self.octets = self.octets.saturating_add(1);
            }
            left = rest;
        }
    }
}

/// Reads a script to its end, or to a line over the limits.
fn read_script<R: Files + AllocGlobal>(rt: &R, name: &str) -> io::Result<Vec<u8>> {
    let mut file = File::open(rt, name)?;
    let mut script = Vec::new(rt.alloc());
    let mut extent = Extent {
        lines: 0,
        octets: 0,
    };
    for _ in 0..usize::MAX {
        let before = script.len();
        let read = (&mut file).take(PART).read_to_end(&mut script)?;
        extent.add(&script[before..]);
        if read == 0 || extent.is_over() {
            break;
        }
    }
    Ok(script)
}

/// Reads a text of rules, or one with a program, to its end, or to the first octet over its limit.
fn read_text<R: Files + AllocGlobal>(rt: &R, name: &str) -> io::Result<Vec<u8>> {
    let file = File::open(rt, name)?;
    let mut text = Vec::new(rt.alloc());
    file.take(MOST_RULES_OCTETS + 1).read_to_end(&mut text)?;
    Ok(text)
}

/// Returns the octets of a file, or the message about it.
fn octets_or_message(
    alloc: Global,
    name: &[u8],
    read: io::Result<Vec<u8>>,
) -> Result<Vec<u8>, Unreadable>
    ensures { IfErr result (IsUnreadable name.now) }
{
    match read {
        Ok(octets) => Ok(octets),
        Err(error) => Err(Unreadable::new(alloc, name, in_words(alloc, &error))),
    }
}

/// Reads a file of rules that a setup script names: one beside the script, unless its name is an absolute path.
fn read_rules<R: Files + AllocGlobal>(
    rt: &R,
    setup: &str,
    name: &[u8],
) -> Result<Vec<u8>, Unreadable>
    ensures { IfErr result (λ unreadable. IsUnreadable name.now unreadable ⊎ IsUnreadable (path_with_file_name setup.now name.now) unreadable) }
{
    let Ok(name) = str::from_utf8(name) else {
        return Err(Unreadable::not_utf8(rt.alloc(), name));
    };
    let Ok(path) = Path::new(setup).with_file_name(rt.alloc(), name) else {
        return Err(Unreadable::without_reason(rt.alloc()));
    };
    let path = path.as_os_str();
    octets_or_message(rt.alloc(), path.as_bytes(), read_text(rt, path))
}

/// Returns the octets of a file of rules. The file is read unless it was read before, for a line with the same name.
fn rules_once<'a, R: Files + AllocGlobal>(
    rt: &R,
    setup: &str,
    known: &mut BTreeMap<&'a [u8], SharedText>,
    name: &'a [u8],
) -> Result<SharedText, Unreadable>
    ensures { IfErr result (IsUnreadableSetup setup.now) }
{
    if let Some(text) = known.get(&name) {
        return match text.share() {
            Ok(text) => Ok(text),
            Err(_) => Err(Unreadable::without_reason(rt.alloc())),
        };
    }
    let octets = match read_rules(rt, setup, name) {
        Ok(octets) => octets,
        Err(unreadable) => return Err(unreadable),
    };
    let Ok(text) = SharedText::new(rt.alloc(), octets) else {
        return Err(Unreadable::without_reason(rt.alloc()));
    };
    let Ok(copy) = text.share() else {
        return Err(Unreadable::without_reason(rt.alloc()));
    };
    match known.insert(name, copy) {
        Ok(_) => Ok(text),
        Err(_) => Err(Unreadable::without_reason(rt.alloc())),
    }
}

/// Returns the octets of the file of rules of a line. For a file that need not be read (`file` is None) it returns `unread`, an empty text.
fn rules_of_line<'a, R: Files + AllocGlobal>(
    rt: &R,
    setup: &str,
    known: &mut BTreeMap<&'a [u8], SharedText>,
    unread: &SharedText,
    file: &'a Option<Vec<u8>>,
) -> Result<SharedText, Unreadable>
    requires { octets_of_text unread.now ≡ [] }
    ensures text { IfOk result (λ text. IsTextForFile (octets_of_name file.now) (octets_of_text text)) }
    ensures unreadable { IfErr result (IsUnreadableSetup setup.now) }
{
    match file {
        Some(name) => rules_once(rt, setup, known, name),
        None => match unread.share() {
            Ok(text) => Ok(text),
            Err(_) => Err(Unreadable::without_reason(rt.alloc())),
        },
    }
}

/// Reads these files of rules, each once.
fn read_all_rules<R: Files + AllocGlobal>(
    rt: &R,
    setup: &str,
    files: &[Option<Vec<u8>>],
) -> Result<Vec<SharedText>, Unreadable>
    ensures texts { IfOk result (λ rules. AreTextsForFiles (octets_of_names files.now) (octets_of_texts rules.items)) }
    ensures unreadable { IfErr result (IsUnreadableSetup setup.now) }
{
    let Ok(unread) = SharedText::new(rt.alloc(), Vec::new(rt.alloc())) else {
        return Err(Unreadable::without_reason(rt.alloc()));
    };
    let mut known = BTreeMap::new(rt.alloc());
    let mut rules = Vec::new(rt.alloc());
    let mut left = files;
    while let [file, rest @ ..] = left {
        let text = rules_of_line(rt, setup, &mut known, &unread, file)?;
        if rules.push(text).is_err() {
            return Err(Unreadable::without_reason(rt.alloc()));
        }
        left = rest;
    }
    Ok(rules)
}

/// Reads the setup script with this name, and the files of rules that it names.
fn read_setup<R: Files + AllocGlobal>(rt: &R, name: &[u8]) -> Result<NamedFiles, Unreadable>
    ensures texts { IfOk result (λ files. AreTextsForFiles (files_read files.script.items) (octets_of_texts files.rules.items)) }
    ensures unreadable { IfErr result (IsUnreadableSetup name.now) }
{
    let Ok(setup) = str::from_utf8(name) else {
        return Err(Unreadable::not_utf8(rt.alloc(), name));
    };
    let mut script = octets_or_message(rt.alloc(), name, read_script(rt, setup))?;
    let tick = take_tick(&mut script);
    let Ok(files) = files_read(rt.alloc(), &script) else {
        return Err(Unreadable::without_reason(rt.alloc()));
    };
    let rules = read_all_rules(rt, setup, &files)?;
    Ok(NamedFiles {
        script,
        tick,
        rules,
        other_text: Vec::new(rt.alloc()),
    })
}

/// Returns the message about a name that is longer than the system takes.
fn too_long(alloc: Global, shown: &str) -> Unreadable
    ensures { IsUnreadable shown.now result }
{
    match Vec::from_slice(alloc, b"the name of a file has at most 4095 octets") {
        Ok(reason) => Unreadable::new(alloc, shown.as_bytes(), reason),
        Err(_) => Unreadable::without_reason(alloc),
    }
}

/// Reads the setup script that is shown by this name, and the files of rules that it names.
fn read_shown_setup<R: Files + AllocGlobal, C: CommandLine>(
    rt: &R,
    line: &C,
    shown: &str,
) -> Result<NamedFiles, Unreadable>
    ensures texts { IfOk result (λ files. AreTextsForFiles (files_read files.script.items) (octets_of_texts files.rules.items)) }
    ensures unreadable { IfErr result (IsUnreadableShown shown.now) }
{
    match name_given(rt.alloc(), line, shown) {
        Ok(Some(name)) => read_setup(rt, &name),
        Ok(None) => Err(too_long(rt.alloc(), shown)),
        Err(_) => Err(Unreadable::without_reason(rt.alloc())),
    }
}

/// Reads the old text, or the rules of `fit`, in the file with this name.
fn read_other_text<R: Files + AllocGlobal>(rt: &R, name: &[u8]) -> Result<NamedFiles, Unreadable>
    ensures script { IfOk result (λ files. files.script.items ≡ []) }
    ensures rules { IfOk result (λ files. files.rules.items ≡ []) }
    ensures unreadable { IfErr result (IsUnreadable name.now) }
{
    let Ok(path) = str::from_utf8(name) else {
        return Err(Unreadable::not_utf8(rt.alloc(), name));
    };
    let other_text = octets_or_message(rt.alloc(), name, read_text(rt, path))?;
    Ok(NamedFiles {
        script: Vec::new(rt.alloc()),
        tick: None,
        rules: Vec::new(rt.alloc()),
        other_text,
    })
}

/// Reads the old text, or the rules of `fit`, in the file that is shown by this name.
fn read_shown_other_text<R: Files + AllocGlobal, C: CommandLine>(
    rt: &R,
    line: &C,
    shown: &str,
) -> Result<NamedFiles, Unreadable>
    ensures script { IfOk result (λ files. files.script.items ≡ []) }
    ensures rules { IfOk result (λ files. files.rules.items ≡ []) }
    ensures unreadable { IfErr result (IsUnreadableShown shown.now) }
{
    match name_given(rt.alloc(), line, shown) {
        Ok(Some(name)) => read_other_text(rt, &name),
        Ok(None) => Err(too_long(rt.alloc(), shown)),
        Err(_) => Err(Unreadable::without_reason(rt.alloc())),
    }
}

/// Reads the files that the words name: the setup script of `police`, `forward` or `explain` and the files of rules
/// that it names, the old text of `differ`, or the rules of `fit`. Other words name none. `line` is the command line of
/// these words.
///
/// No contract is about the octets of a file. A script is read up to a line over the limits, and a file of rules up to its limit and an
/// octet more. A file of rules isn't read if no program of it could be loaded ([`files_read`]), and it is read once for all lines that name
/// it alike.
pub fn read_named_files<R: Files + AllocGlobal, C: CommandLine>(
    rt: &R,
    line: &C,
    chosen: &Result<Asked, Stop>,
) -> Result<NamedFiles, Unreadable>
    ensures unnamed { setup_name chosen.now ≡ None → old_name chosen.now ≡ None → fit_rules_name chosen.now ≡ None
        → IsOkAnd result (λ files. (files.script.items ≡ []) × (files.rules.items ≡ []) × (files.other_text.items ≡ [])) }
    ensures texts { IfOk result (λ files. AreTextsForFiles (files_read files.script.items) (octets_of_texts files.rules.items)) }
    ensures unreadable { IfErr result (λ unreadable. IfSome (setup_name chosen.now) (λ shown. IsUnreadableShown shown unreadable)) }
    ensures unreadable_old { IfErr result (λ unreadable. IfSome (old_name chosen.now) (λ shown. IsUnreadableShown shown unreadable)) }
    ensures unreadable_rules { IfErr result (λ unreadable. IfSome (fit_rules_name chosen.now) (λ shown. IsUnreadableShown shown unreadable)) }
{
    match chosen {
        Ok(Asked::Police(options)) => read_shown_setup(rt, line, options.setup.as_str()),
        Ok(Asked::Forward(options)) => read_shown_setup(rt, line, options.setup.as_str()),
        Ok(Asked::Differ(options)) => read_shown_other_text(rt, line, options.old.as_str()),
        Ok(Asked::Fit(options)) => match &options.rules {
            Some(name) => read_shown_other_text(rt, line, name.as_str()),
            None => Ok(NamedFiles::none(rt.alloc())),
        },
        Ok(Asked::Explain(options)) => match &options.setup {
            Some(name) => read_shown_setup(rt, line, name.as_str()),
            None => Ok(NamedFiles::none(rt.alloc())),
        },
        _ => Ok(NamedFiles::none(rt.alloc())),
    }
}
