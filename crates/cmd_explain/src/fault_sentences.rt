//! Sentences about fault lines of files, captures, links, ticks, sizes and `fit`.

ghost use Rattle.std.specs.Prelude.{◌≡◌, ◌++◌, map, option_map, flat_map, get_or, [], IfOk, OnOk};
ghost use Rattle.bpf_asm.specs.SourceLines.{source_lines};
ghost use Rattle.text_io.specs.Devices.{Adds};
ghost use Rattle.text_io.specs.Serving.{IsServed};
ghost use Rattle.text_io.specs.Words.{words_of};
ghost use Rattle.cmd_explain.specs.FaultSentences.{IsFaultsText, explained_line, fault_key, fault_sentences, faults_text, meant_octet, with_numbers, sentence_text};
ghost use Rattle.cmd_explain_script.specs.Tables.{value_among};

use bpf_asm::next_line;
use cmd_explain_script::value_among;
use std::alloc::{AllocError, Global};
use text_io::{Added, Answered, Answerer, Done, Ending, Input, Output, answer_whole, first_word};
use text_words::{TOO_LONG, add_text};

/// The maximum number of octets of fault lines.
const MOST_FAULT_OCTETS: u32 = 1048576;

/// The family, the number and the name of each fault, and its sentence. In a sentence `%` stands for the first number of the fault line,
/// and `@` for the second.
const FAULT_SENTENCES: [(&[u8], &[u8]); 34] = [
    (
        b"file 1 Gzip",
        b"gzip compressed this file: pass it through gunzip first",
    ),
    (
        b"file 2 OtherLink",
        b"the packets of this pcap file have link type %, and only 197, ERF, is read",
    ),
    (b"file 3 Text", b"this file is a text, and no capture"),
    (
        b"file 4 Xz",
        b"xz compressed this file: pass it through unxz first",
    ),
    (
        b"file 5 Bzip2",
        b"bzip2 compressed this file: pass it through bunzip2 first",
    ),
    (
        b"file 6 Zstd",
        b"zstd compressed this file: pass it through unzstd first",
    ),
    (
        b"file 7 Empty",
        b"the input has no octets: perhaps the program before it in a pipe wrote nothing",
    ),
    (
        b"link 1 Several",
        b"the cells are of link % and of link @, perhaps two lines: choose one by --link; upc-lab links lists all",
    ),
    (
        b"capture 1 CutOff",
        b"the file ends inside what begins at octet %: perhaps the recording or a copy of it was cut off",
    ),
    (
        b"capture 2 ShortLength",
        b"what begins at octet @ has length %: a record has 16 octets or more, and a block 12; perhaps octets before it are lost",
    ),
    (
        b"capture 3 LongLength",
        b"what begins at octet @ has length %: a record has at most 65535 octets, and a block 131072; perhaps octets before it are lost",
    ),
    (
        b"capture 4 ShortRecord",
        b"the packet at octet % has no whole header of an ERF record",
    ),
    (
        b"capture 5 TooFar",
        b"what begins at octet % would end after 2^64 - 1 octets",
    ),
    (
        b"capture 6 OddLength",
        b"the block at octet @ has length %, which is no multiple of 4",
    ),
    (
        b"capture 7 LengthsDiffer",
        b"the block at octet @ has one length at its beginning, and % at its end",
    ),
    (
        b"capture 8 OtherMagic",
        b"the section header at octet @ has the byte-order magic %, which is that of no order",
    ),
    (
        b"capture 9 OtherVersion",
        b"the section header at octet @ has version %, and only version 1 is read",
    ),
    (
        b"capture 10 ShortBlock",
        b"the block at octet @ has % octets, too few for its type",
    ),
    (
        b"capture 11 OtherLink",
        b"the interface described at octet @ has link type %; after 64 interfaces of a section only 197, ERF, is read",
    ),
    (
        b"capture 12 NoInterface",
        b"the packet at octet @ names interface %, which its section lacks",
    ),
    (
        b"capture 13 LongPacket",
        b"the packet at octet @ has length %, and its block is shorter",
    ),
    (
        b"capture 14 ShortText",
        b"the file has fewer than 16 octets, and they are text",
    ),
    (
        b"capture 15 OtherResolution",
        b"the interface described at octet @ has times of resolution %, in units too short for 64 bits: leave --time packet out",
    ),
    (
        b"capture 16 OtherUnit",
        b"the interface described at octet @ has times of resolution %, or with other seconds to add than interfaces before it: editcap -F nsecpcap gives all one unit",
    ),
    (
        b"fit 1 TooManyConnections",
        b"the cell of record % is of a 65,536th connection, and there is room for 65,535",
    ),
    (
        b"fit 2 TooLarge",
        b"after the cell of record % a number has more than 64 bits: the increment is far too large",
    ),
    (
        b"tick 1 Differs",
        b"the setup says that a tick has % ns, and --tick says @: leave one out",
    ),
    (
        b"size 1 BadLine",
        b"a contract is cbr1 pcr RATE cdvt TIME tick TIME; of vbr1, vbr2 and vbr3, scr RATE mbs NUMBER come before cdvt",
    ),
    (
        b"size 2 BadNumber",
        b"a RATE is as 10000 or 149.76Mbit/s, a TIME as 250us, and a tick has 1ns to 1s",
    ),
    (b"size 3 ZeroRate", b"a rate is 0"),
    (
        b"size 4 TooFast",
        b"a rate is above one cell in a tick: name a shorter tick",
    ),
    (
        b"size 5 ZeroMbs",
        b"mbs is 0, and a burst has one cell at least",
    ),
    (
        b"size 6 PeakSlower",
        b"in ticks of this length, scr is above pcr",
    ),
    (
        b"size 7 TooLarge",
        b"a limit is above 2^48 ticks: name a longer tick",
    ),
];

/// Returns the sentence of a fault among these.
fn sentence_among(key: &[u8], rows: &[(&'static [u8], &'static [u8])]) -> Option<&'static [u8]>
    ensures { option_map (λ sentence. sentence.now) result ≡ value_among key.now (map (λ row. (row.0.now, row.1.now)) rows.now) }
{
    value_among(key, rows)
}

/// Returns the sentence of a fault, by its family, number and name.
fn sentence_of(key: &[u8]) -> Option<&'static [u8]>
    ensures { option_map (λ sentence. sentence.now) result ≡ value_among key.now fault_sentences }
{
    sentence_among(key, &FAULT_SENTENCES)
}

/// Appends what an octet of a sentence stands for.
fn add_meant(answers: &mut Vec<u8>, octet: u8, first: &[u8], second: &[u8]) -> Added
    ensures { OnOk result (answers.new.items ≡ answers.old.items ++ meant_octet first.now second.now octet) }
{
    match octet {
        b'%' => add_text(answers, first),
        b'@' => add_text(answers, second),
        octet => Ok(answers.push(octet)?),
    }
}

/// Appends a sentence with these numbers in place of its marks.
fn add_filled(answers: &mut Vec<u8>, sentence: &[u8], first: &[u8], second: &[u8]) -> Added
    ensures { OnOk result (answers.new.items ≡ answers.old.items ++ with_numbers first.now second.now sentence.now) }
{
    let mut left = sentence;
    while let [octet, rest @ ..] = left {
        add_meant(answers, *octet, first, second)?;
        left = rest;
    }
    Ok(())
}

/// Appends the sentence of a fault, with its numbers.
fn add_sentence(
    answers: &mut Vec<u8>,
    sentence: Option<&[u8]>,
    first: &[u8],
    second: &[u8],
) -> Added
    ensures { OnOk result (answers.new.items ≡ answers.old.items
        ++ sentence_text (option_map (λ sentence. sentence.now) sentence.entry) first.now second.now) }
{
    match sentence {
        Some(sentence) => add_filled(answers, sentence, first, second),
        None => add_text(
            answers,
            b"the script, the source or the rules themselves have a sentence for it: explain them",
        ),
    }
}

/// Appends the family, the number and the name of a fault with spaces between them.
#[tactic(auto, using(std::proofs::lemmas::List::append_assoc))]
fn add_fault_key(key: &mut Vec<u8>, family: &[u8], number: &[u8], name: &[u8]) -> Added
    ensures { OnOk result (key.new.items ≡ key.old.items ++ fault_key family.now number.now name.now) }
{
    add_text(key, family)?;
    key.push(b' ')?;
    add_text(key, number)?;
    key.push(b' ')?;
    add_text(key, name)
}

/// Returns the family, the number and the name of a fault with spaces between them.
fn fault_key(
    alloc: Global,
    family: &[u8],
    number: &[u8],
    name: &[u8],
) -> Result<Vec<u8>, AllocError>
    ensures { IfOk result (λ key. key.items ≡ fault_key family.now number.now name.now) }
{
    let mut key = Vec::new(alloc);
    add_fault_key(&mut key, family, number, name)?;
    Ok(key)
}

/// Returns the first word of a text, or no octets, and the rest.
fn word_or_none(text: &[u8]) -> (&[u8], &[u8])
    ensures first { result.0.now ≡ get_or (words_of text.now) 0 [] }
    ensures second { get_or (words_of result.1.now) 0 [] ≡ get_or (words_of text.now) 1 [] }
{
    match first_word(text) {
        Some((word, rest)) => (word, rest),
        None => (&[], &[]),
    }
}

/// Appends the answer to a line: a fault line and its sentence. Another line has none.
#[tactic(auto, unfolding(crate::specs::FaultSentences::explained_line), using(std::proofs::lemmas::List::append_assoc))]
fn add_explained_line(alloc: Global, answers: &mut Vec<u8>, content: &[u8]) -> Added
    ensures { OnOk result (answers.new.items ≡ answers.old.items ++ explained_line content.now) }
{
    let Some((word, rest)) = first_word(content) else {
        return Ok(());
    };
    let Some((family, rest)) = first_word(rest) else {
        return Ok(());
    };
    let Some((number, rest)) = first_word(rest) else {
        return Ok(());
    };
    let Some((name, rest)) = first_word(rest) else {
        return Ok(());
    };
    if word != b"fault".as_slice() {
        return Ok(());
    }
    let key = fault_key(alloc, family, number, name)?;
    let (first, rest) = word_or_none(rest);
    let (second, _) = word_or_none(rest);
    add_text(answers, content)?;
    answers.push(b'\n')?;
    add_sentence(answers, sentence_of(&key), first, second)?;
    answers.push(b'\n')?;
    Ok(())
}

/// Appends the answer to a text of fault lines.
fn add_explained_lines(alloc: Global, answers: &mut Vec<u8>, text: &[u8]) -> Added
    ensures { OnOk result (answers.new.items ≡ answers.old.items ++ faults_text text.now) }
{
    let mut left = text;
    while let Some((content, rest)) = next_line(left) {
        add_explained_line(alloc, answers, content)?;
        left = rest;
    }
    Ok(())
}

/// The answerer that explains fault lines.
struct Faults;

impl Answerer for Faults {
    ghost use Rattle.cmd_explain.specs.FaultSentences.{PrintsFaults};
    ghost use Rattle.cmd_explain.specs.inner.FaultsTotal.{faults-answered};

    ghost prints = { λ faults. PrintsFaults };

    ghost allows = { λ faults. PrintsFaults };

    fn answer(&self, alloc: Global, octets: &[u8], answers: &mut Vec<u8>) -> Answered {
        add_explained_lines(alloc, answers, octets)?;
        Ok(Done::Ended)
    }

    ghost is_wider = { λ faults octets text done prints. prints };

    ghost is_total = { λ faults. faults-answered };
}

/// Answers fault lines, each by itself and a sentence.
///
/// # Errors
///
/// See [`text_io::RunFault`].
pub(crate) fn explain_fault_lines<I: Input, O: Output>(
    alloc: Global,
    input: &mut I,
    output: &mut O,
) -> Ending
    ensures served { IsServed IsFaultsText I.Input input.old input.new O.Output output.old output.new result }
    ensures printed { I.is_known → O.is_known → IfOk result (λ done.
        Adds (λ text. IsFaultsText (I.rest input.old) text done) (O.held output.old) (O.held output.new)) }
{
    answer_whole(alloc, input, output, MOST_FAULT_OCTETS, TOO_LONG, &Faults)
}
