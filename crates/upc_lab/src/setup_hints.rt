//! The hints about a setup script and the files of rules that it names.

ghost use Rattle.std.specs.Prelude.{◌≡◌, ◌||◌, not, ℕ, List, [], IfOk, OnOk};
ghost use Rattle.std.specs.Str.{bytes_eq};
ghost use Rattle.cmd_explain_rules.specs.HintComments.{AreHintsAbout, text_of_comments};
ghost use Rattle.cmd_setups.specs.FilesRead.{octets_of_name, octets_of_names};
ghost use Rattle.cmd_setups.specs.SharedTexts.{octets_of_texts};
ghost use Rattle.text_io.specs.Devices.{Adds};
ghost use Rattle.upc_lab.specs.NamedFiles.{rules_in_files};
ghost use Rattle.upc_lab.specs.SetupHints.{AreFileHints, AreFilesHints, AreOwnHints, AreSetupHints, MayBeSetupHints, file_front, names_with_file};
ghost use Rattle.upc_lab.specs.inner.NamesMet.{HasNames, has_name};

use crate::file_names::add_shown_name;
use crate::named_files::NamedFiles;
use cmd_explain_rules::{Comments, add_hints_about};
use cmd_police::hints_of_setup;
use cmd_setups::{SharedText, files_read};
use std::alloc::{AllocError, Global};
use std::collections::BTreeSet;
use text_io::Added;

/// Hints, or what comes before one. The error is that memory is short.
type Hints = Result<Vec<u8>, AllocError>;

/// The names of the files that were met.
#[derive(Drop)]
struct NamesMet<'a> {
    pub names: BTreeSet<&'a [u8]>,
}

impl<'a> NamesMet<'a> {
    /// Makes a set without names.
    fn none(alloc: Global) -> NamesMet<'a>
        ensures { HasNames result [] }
    {
        NamesMet {
            names: BTreeSet::new(alloc),
        }
    }

    /// Meets a name. Returns whether it is new.
    fn meet(&mut self, name: &'a [u8]) -> Result<bool, AllocError>
        ensures fresh { IfOk result (λ fresh. fresh ≡ not (has_name self.old name.entry.now)) }
        ensures names { IfOk result (λ _. (other : List ℕ) → has_name self.new other ≡ (bytes_eq name.entry.now other || has_name self.old other)) }
    {
        let fresh = self.names.insert(name)?;
        Ok(fresh)
    }
}

/// Returns what comes before a hint about the file of rules with this name.
#[tactic(auto, using(std::proofs::lemmas::List::append_assoc))]
fn file_front(alloc: Global, name: &[u8]) -> Hints
    ensures { IfOk result (λ front. front.items ≡ file_front name.now) }
{
    let mut front = Vec::new(alloc);
    front.extend_from_slice(b"# ")?;
    add_shown_name(alloc, &mut front, name)?;
    front.extend_from_slice(b": ")?;
    Ok(front)
}

/// Appends the hints about the file of rules with this name.
fn add_hints_after_name(alloc: Global, hints: &mut Vec<u8>, name: &[u8], text: &[u8]) -> Added
    ensures { OnOk result (Adds (AreHintsAbout (file_front name.now) text.now) hints.old.items hints.new.items) }
{
    let front = file_front(alloc, name)?;
    add_hints_about(alloc, hints, &front, text)
}

/// Appends the hints about a file of rules, if it is read and its name wasn't met before.
fn add_file_hints<'a>(
    alloc: Global,
    hints: &mut Vec<u8>,
    met: &mut NamesMet<'a>,
    file: &'a Option<Vec<u8>>,
    text: &[u8],
) -> Added
    ensures hinted { (before : List (List ℕ)) → HasNames met.old before
        → OnOk result (Adds (AreFileHints before (octets_of_name file.now) text.now) hints.old.items hints.new.items) }
    ensures met { (before : List (List ℕ)) → HasNames met.old before → OnOk result (HasNames met.new (names_with_file (octets_of_name file.now) before)) }
{
    let Some(name) = file else {
        return Ok(());
    };
    if !met.meet(name.as_slice())? {
        return Ok(());
    }
    add_hints_after_name(alloc, hints, name, text)
}

/// Returns the hints about these files of rules with these texts.
fn files_hints(alloc: Global, files: &[Option<Vec<u8>>], texts: &[SharedText]) -> Hints
    ensures { IfOk result (λ hints. AreFilesHints [] (octets_of_names files.now) (octets_of_texts texts.now) hints.items) }
{
    let mut hints = Vec::new(alloc);
    let mut met = NamesMet::none(alloc);
    let mut left = files;
    let mut texts_left = texts;
    while let [file, rest @ ..] = left {
        let [text, texts_rest @ ..] = texts_left else {
            return Ok(hints);
        };
        add_file_hints(alloc, &mut hints, &mut met, file, text.as_slice())?;
        left = rest;
        texts_left = texts_rest;
    }
    Ok(hints)
}

/// Returns the hints about the script itself, if they are wanted.
fn own_hints(alloc: Global, wanted: bool, script: &[u8], texts: &[SharedText]) -> Hints
    ensures { IfOk result (λ hints. AreOwnHints wanted script.now (octets_of_texts texts.now) hints.items) }
{
    if wanted {
        hints_of_setup(alloc, script, texts)
    } else {
        Ok(Vec::new(alloc))
    }
}

/// Returns the hints about the files of rules that a setup script names, and then those about the script itself, if they are wanted.
fn setup_hints(alloc: Global, own: bool, script: &[u8], texts: &[SharedText]) -> Hints
    ensures { IfOk result (λ hints. AreSetupHints own script.now (octets_of_texts texts.now) hints.items) }
{
    let files = files_read(alloc, script)?;
    let mut hints = files_hints(alloc, &files, texts)?;
    let more = own_hints(alloc, own, script, texts)?;
    hints.extend_from_slice(&more)?;
    Ok(hints)
}

/// Returns the hints about a setup script as comments: those about the files of rules that it names, each with the name
/// of its file, and those about the script itself, if they are wanted. A file that several lines name has its hints
/// once.
pub(crate) fn setup_comments(alloc: Global, own: bool, files: &NamedFiles) -> Comments
    ensures { MayBeSetupHints own files.now.script.items (rules_in_files files.now) (text_of_comments result) }
{
    match setup_hints(alloc, own, &files.script, &files.rules) {
        Ok(hints) => Comments::Made(hints),
        Err(_) => Comments::NoMemory,
    }
}
