//! The word for a link.

ghost use Rattle.std.specs.Prelude.{◌≡◌, codes, option_map};
ghost use Rattle.text_command_line.specs.Arguments.{text_named, texts_of};
ghost use Rattle.cmd_options.specs.LinkOption.{channel_in_parts, link_in_parts, link_in_word, link_of as link_asked};
ghost use Rattle.text_script.specs.ScriptWords.{cut_at, number_up_to};

use captures::{Channel, Link};
use memchr::memchr;
use text_command_line::{Value, text_of};
use text_script::number;

/// The greatest interface of a card.
const MOST_INTERFACE: u16 = 7;
/// The greatest physical port of a multi-channel header.
const MOST_PORT: u16 = 15;
/// The greatest connection of a multi-channel header.
const MOST_CONNECTION: u16 = 2047;

/// Returns the text before the first `mark` and that after it. None if there is no `mark`.
fn cut(mark: u8, text: &[u8]) -> Option<(&[u8], &[u8])>
    ensures { option_map (λ parts. (parts.0.now, parts.1.now)) result ≡ cut_at mark text.now }
{
    match memchr(mark, text) {
        Some(place) => Some((&text[..place], &text[place + 1..])),
        None => None,
    }
}

/// Returns the number of a word, if it is at most this one.
fn number_at_most(most: u16, word: &[u8]) -> Option<u16>
    ensures { result ≡ number_up_to most word.now }
{
    match number(word) {
        Some(number) if number <= u64::from(most) => Some(number as u16),
        _ => None,
    }
}

/// Returns the channel of a port and a connection, with a slash between them.
fn channel_in(word: &[u8]) -> Option<Channel>
    ensures { result ≡ channel_in_parts (cut_at 47 word.now) }
{
    let (port, connection) = cut(b'/', word)?;
    Some(Channel {
        port: number_at_most(MOST_PORT, port)? as u8,
        connection: number_at_most(MOST_CONNECTION, connection)?,
    })
}

/// Returns the link of the interface of a card, and of a channel after a slash, if there is one.
fn card_link(packet: Option<u64>, word: &[u8]) -> Option<Link>
    ensures { result ≡ link_in_parts packet word.now (cut_at 47 word.now) }
{
    let Some((interface, channel)) = cut(b'/', word) else {
        return Some(Link {
            packet_interface: packet,
            interface: number_at_most(MOST_INTERFACE, word)? as u8,
            channel: None,
        });
    };
    Some(Link {
        packet_interface: packet,
        interface: number_at_most(MOST_INTERFACE, interface)? as u8,
        channel: Some(channel_in(channel)?),
    })
}

/// Returns the link that a word spells.
fn link_in(word: &[u8]) -> Option<Link>
    ensures { result ≡ link_in_word word.now }
{
    match cut(b':', word) {
        None => card_link(None, word),
        Some((packet, rest)) => card_link(Some(number(packet)?), rest),
    }
}

/// Returns the link that the value of `--link` spells, or `Some(None)` without that option. None if the value is wrong.
pub(crate) fn link_of(values: &[Value]) -> Option<Option<Link>>
    ensures { result ≡ link_asked (text_named (texts_of values.now) (codes "link")) }
{
    let Some(text) = text_of(values, "link") else {
        return Some(None);
    };
    Some(Some(link_in(text.as_bytes())?))
}
