//! Blocks and packets of a pcapng file that have no record for this reader.

ghost use Rattle.std.specs.Prelude.{◌≡◌, ◌++◌, OnOk};
ghost use Rattle.captures_text.specs.SkippedBlocks.{block_line, block_lines, first_place, no_blocks, unknown_blocks, one_more_block};

use crate::fault_lines::add_with_number;
use crate::tally::{CountAndFirst, add_count};
use captures::SkippedKind;
use std::alloc::AllocError;
use text_words::{add_numbered, add_text};

/// Blocks and packets of a pcapng file that have no record for this reader, by kind. `first` is the place of the first one of a kind, in
/// octets from 0.
#[derive(Clone, Copy)]
pub struct BlockTallies {
    /// Simple packets.
    pub simple: CountAndFirst,
    /// Obsolete packets.
    pub obsolete: CountAndFirst,
    /// Blocks of unknown types.
    pub other: CountAndFirst,
    /// The type of the first block of an unknown type.
    pub other_type: u32,
    /// Packets of an interface of another link type.
    pub other_link: CountAndFirst,
}

impl BlockTallies {
    /// Returns the tallies before any block.
    pub(crate) fn none() -> BlockTallies
        ensures { result ≡ no_blocks }
    {
        let none = CountAndFirst::none();
        BlockTallies {
            simple: none,
            obsolete: none,
            other: none,
            other_type: 0,
            other_link: none,
        }
    }

    /// Counts one block more of an unknown type, which begins at this place.
    fn count_other(&mut self, kind: u32, at: u64)
        ensures { self.new ≡ one_more_block self.old (SkippedKind.OtherBlock kind) at }
    {
        self.other_type = if self.other.count == 0 {
            kind
        } else {
            self.other_type
        };
        self.other = self.other.with(at);
    }

    /// Counts one block more, which begins at this place.
    pub(crate) fn count(&mut self, what: SkippedKind, at: u64)
        ensures { self.new ≡ one_more_block self.old what at }
    {
        match what {
            SkippedKind::NoPacket | SkippedKind::Entry => {}
            SkippedKind::SimplePacket => self.simple = self.simple.with(at),
            SkippedKind::OldPacket => self.obsolete = self.obsolete.with(at),
            SkippedKind::OtherBlock(kind) => self.count_other(kind, at),
            SkippedKind::OtherLinkPacket => self.other_link = self.other_link.with(at),
        }
    }
}

/// Appends the place of the first block of a kind.
fn add_place(answers: &mut Vec<u8>, tally: CountAndFirst) -> Result<(), AllocError>
    ensures { OnOk result (answers.new.items ≡ answers.old.items ++ first_place tally) }
{
    add_numbered(answers, b"; first at octet ", tally.first as usize)
}

/// Appends a comment about blocks of a kind, if there are any.
#[tactic(auto, using(std::proofs::lemmas::List::append_assoc))]
fn add_kind(answers: &mut Vec<u8>, tally: CountAndFirst, why: &[u8]) -> Result<(), AllocError>
    ensures { OnOk result (answers.new.items ≡ answers.old.items ++ block_line tally why.now) }
{
    if tally.count == 0 {
        return Ok(());
    }
    add_count(answers, tally)?;
    add_text(answers, why)?;
    add_place(answers, tally)
}

/// Appends what blocks of unknown types are.
fn add_unknown(answers: &mut Vec<u8>, kind: u32) -> Result<(), AllocError>
    ensures { OnOk result (answers.new.items ≡ answers.old.items ++ unknown_blocks kind) }
{
    add_with_number(
        answers,
        b"blocks of unknown types, the first of type ",
        kind,
    )
}

/// Appends a comment about blocks of unknown types, if there are any.
#[tactic(auto, using(std::proofs::lemmas::List::append_assoc))]
fn add_other(answers: &mut Vec<u8>, tally: CountAndFirst, kind: u32) -> Result<(), AllocError>
    ensures { OnOk result (answers.new.items ≡ answers.old.items ++ block_line tally (unknown_blocks kind)) }
{
    if tally.count == 0 {
        return Ok(());
    }
    add_count(answers, tally)?;
    add_unknown(answers, kind)?;
    add_place(answers, tally)
}

/// Appends a comment for each kind.
#[tactic(auto, using(std::proofs::lemmas::List::append_assoc))]
pub(crate) fn add_blocks(answers: &mut Vec<u8>, blocks: BlockTallies) -> Result<(), AllocError>
    ensures { OnOk result (answers.new.items ≡ answers.old.items ++ block_lines blocks) }
{
    add_kind(answers, blocks.simple, b"simple packets")?;
    add_kind(answers, blocks.obsolete, b"obsolete packets")?;
    add_kind(answers, blocks.other_link, b"packets of another link type")?;
    add_other(answers, blocks.other, blocks.other_type)
}
