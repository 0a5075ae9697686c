//! The words for links. Each function appends to the answers.

ghost use Rattle.std.specs.Prelude.{◌≡◌, ◌++◌, OnOk};
ghost use Rattle.captures_text.specs.LinkWords.{channel_part, link_word, packet_part};

use crate::fault_lines::add_with_number;
use captures::{Channel, Link};
use std::alloc::AllocError;
use text_words::add_number;

/// Appends the interface of a packet, if it has one.
fn add_packet(answers: &mut Vec<u8>, packet: Option<u64>) -> Result<(), AllocError>
    ensures { OnOk result (answers.new.items ≡ answers.old.items ++ packet_part packet) }
{
    let Some(interface) = packet else {
        return Ok(());
    };
    add_number(answers, interface)?;
    answers.push(b':')?;
    Ok(())
}

/// Appends a port and a connection, if there are any.
#[tactic(auto, using(std::proofs::lemmas::List::append_assoc))]
fn add_channel(answers: &mut Vec<u8>, channel: Option<Channel>) -> Result<(), AllocError>
    ensures { OnOk result (answers.new.items ≡ answers.old.items ++ channel_part channel) }
{
    let Some(channel) = channel else {
        return Ok(());
    };
    add_with_number(answers, b"/", u32::from(channel.port))?;
    add_with_number(answers, b"/", u32::from(channel.connection))
}

/// Appends the word for a link.
#[tactic(auto, using(std::proofs::lemmas::List::append_assoc))]
pub fn add_link(answers: &mut Vec<u8>, link: Link) -> Result<(), AllocError>
    ensures { OnOk result (answers.new.items ≡ answers.old.items ++ link_word link) }
{
    add_packet(answers, link.packet_interface)?;
    add_number(answers, u64::from(link.interface))?;
    add_channel(answers, link.channel)
}
