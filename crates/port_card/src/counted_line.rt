//! A line of the running card, with the shares of its counts.

ghost use Rattle.std.specs.Prelude.{◌≡◌};

use crate::books::Books;
use crate::ledgers::Ledgers;
use crate::seat::PortSeat;
use crate::seatings::Seatings;
use crate::shares::LineShares;
use card_core::{Answer, Ask, DeskFault, Named, cut, judgement_at, release, setup};
use leaky::Verdict;
use line_record::{Line, Owner, Piece, Seating};
use upc_cell::Vc;

/// The data behind the lock of a line: the line, and its share of each ledger of lines. Both have the same counts.
#[derive(Drop)]
pub(crate) struct CountedLine<S: Ledgers> {
    pub(crate) line: Line,
    pub(crate) shares: LineShares<S>,
    ghost one: { shares.parts ≡ 1 },
    ghost same: { shares.tally ≡ line.state.counts },
}

impl<S: Ledgers> CountedLine<S> {
    ghost use Rattle.std.specs.Prelude.{◌≡◌, ◌≢◌, ◌+◌, ◌<◌, ◌≤◌, ◌^◌, [], length, Some, None, IfOk, IfErr, IfSome, IsSome, MatchOption, MatchResult, OnErr, OnOk};
    ghost use Rattle.line_record.specs.Directory.{seating_at, IsOpenLine, Sits};
    ghost use Rattle.line_record.specs.History.{IsNoNumber};
    ghost use Rattle.line_record.specs.Line.{IsLine, OpensLine};
    ghost use Rattle.line_record.specs.Piece.{IsJournalOf, IsPiece};
    ghost use Rattle.line_record.specs.Tally.{nothing, HasRoom};
    ghost use Rattle.card_core.specs.Sections.{holder, judging_refusal, IsUncut, IsUnready, MayBecomeReady, JudgesAt, judged_in_answer};
    ghost use Rattle.card_core.specs.Steps.{cell_after};
    ghost use Rattle.port_card.specs.Seats.{counts_after, seat_after, tally_of_seat};
    ghost use Rattle.port_card.specs.Answers.{BlamesRightly, IsOfSetup, IsOfRelease, IsOfCut};
    ghost use Rattle.port_card.specs.inner.Shares.{unused_shares};

    /// A line that has judged nothing, with its shares.
    pub(crate) fn new(line: Line, shares: LineShares<S>) -> Self
        requires line { line.state.counts ≡ nothing }
        requires shares { shares ≡ unused_shares 1 }
        ensures { result.line ≡ line }
    {
        CountedLine { line, shares }
    }

    /// Returns empty shares, into which those of the lines are merged.
    pub(crate) fn no_shares(&mut self) -> LineShares<S>
        ensures { result ≡ unused_shares 0 }
    {
        self.shares.none()
    }

    /// Judges a cell on the line, and counts it if it was judged. Returns `JournalFull` if one of the card's sums is
    /// 2^62, whatever the verdict would be.
    pub(crate) fn judge(
        &mut self,
        books: &mut Books<S>,
        seat: &mut PortSeat<S>,
        vc: Vc,
        seating: &Seating,
        named: &Named,
        moment: u64,
    ) -> Answer
        requires { seating.now.line < length seat.old.tallies }

        // As `judge_at` of `card_core`, on this line.
        ensures section { HasRoom books.old → MatchOption (judging_refusal self.old.line vc seating.now moment)
            (JudgesAt self.old.line seating.now named.now moment result self.new.line)
            (λ refused. (result ≡ refused) × (self.new.line ≡ self.old.line)) }
        ensures full { (HasRoom books.old → ⊥) → (result ≡ Answer.JournalFull) × (self.new.line ≡ self.old.line) }
        ensures kept { HasRoom books.old → IsLine self.old.line }

        // The seat counts the cell exactly if it was judged.
        ensures tallied { seat.new ≡ seat_after seat.old (judged_in_answer result) }
        ensures total { tally_of_seat seat.new ≡ counts_after (tally_of_seat seat.old) (judged_in_answer result) }

        // The answer to a judged cell. The moment is the error only if it is too late or goes back.
        ensures there { IfSome (judged_in_answer result) (λ judged. judged.line ≡ seating.now.line) }
        ensures moment { IfSome (judged_in_answer result) (λ judged. judged.moment ≡ moment) }
        ensures value { IfSome (judged_in_answer result) (λ judged. judged.value ≡ named.now.value) }
        ensures program { IfSome (judged_in_answer result) (λ judged. judged.program ≡ named.now.program) }
        ensures cell { IfSome (judged_in_answer result) (λ judged. judged.cell ≡ cell_after judged.verdict named.now.cell) }
        ensures unnamed { IfSome (judged_in_answer result) (λ judged.
            IsNoNumber judged.value → judged.verdict ≡ Verdict.Refuse) }
        ensures in_time { IsSome (judged_in_answer result) → moment ≤ 2 ^ 62 }
        ensures blames { BlamesRightly moment result }
        ensures memory { result ≢ Answer.NoMemory }
        ensures live { result ≢ Answer.Stale }
    {
        if !books.has_room() {
            return Answer::JournalFull;
        }
        match judgement_at(&mut self.line, vc, seating, named, moment) {
            Ok(judged) => {
                seat.count(books, &mut self.shares, judged.line, judged.verdict);
                judged.answer(&named.cell())
            }
            Err(reason) => reason.answer(),
        }
    }

    /// Sets up a connection on the line with this number.
    pub(crate) fn setup(
        &mut self,
        seatings: &mut Seatings<S>,
        number: u16,
        ask: Ask,
    ) -> Result<Owner, (DeskFault, Ask)>
        requires absent { seating_at seatings.old.directory ask.vc ≡ None }
        requires within { number < seatings.old.directory.lines }
        requires open { IsOpenLine seatings.old.directory number }
        requires some { 0 < length ask.contracts.items }
        requires unworn { seatings.old.directory.used < 2 ^ 62 }

        // As the locked section of `card_core`, on this line and this directory.
        ensures opened { IfOk result (λ owner.
            OpensLine self.old.line owner ask.contracts.items self.new.line) }
        ensures seating { OnOk result (Sits seatings.old.directory ask.vc
            (Some (record { line = number; incarnation = seatings.old.directory.used + 1; program = ask.program }))
            seatings.new.directory) }
        ensures unready { IfErr result (λ refused. IsUnready self.old.line refused.0) }
        ensures unchanged { OnErr result (seatings.new.directory ≡ seatings.old.directory) }
        ensures line_stale { IfErr result (λ refused. refused.0 ≡ DeskFault.Stale → self.new.line ≡ self.old.line) }
        ensures line_unchanged { OnErr result (MayBecomeReady self.old.line self.new.line) }

        ensures owner { IfOk result (λ owner. owner.vc ≡ ask.vc) }
        ensures refused { IfErr result (λ refused. IsOfSetup refused.0) }
        ensures returned { IfErr result (λ refused. refused.1 ≡ ask) }
    {
        setup(&mut seatings.directory, &mut self.line, number, ask)
    }

    /// Releases the connection that the directory has on this line, and returns its journal.
    pub(crate) fn release(
        &mut self,
        seatings: &mut Seatings<S>,
        vc: Vc,
        seating: &Seating,
    ) -> Result<Piece, DeskFault>
        requires { seating_at seatings.old.directory vc ≡ Some seating.now }

        // As the locked section of `card_core`, on this line and this directory.
        ensures served { MatchResult result
            (λ _. self.old.line.owner ≡ Some (holder vc seating.now))
            (λ fault. (fault ≡ DeskFault.Stale) × (self.old.line.owner ≢ Some (holder vc seating.now))) }
        ensures journal { IfOk result (λ piece. IsJournalOf self.old.line piece) }
        ensures gone { OnOk result (Sits seatings.old.directory vc None seatings.new.directory) }
        ensures unchanged { OnErr result
            ((seatings.new.directory ≡ seatings.old.directory) × (self.new.line ≡ self.old.line)) }

        ensures piece { IfOk result (λ piece. piece.owner.vc ≡ vc) }
        ensures run { IfOk result (λ piece. IsPiece piece) }
        ensures refused { IfErr result IsOfRelease }
    {
        release(&mut seatings.directory, &mut self.line, vc)
    }

    /// Returns the connection's journal and starts a new one.
    pub(crate) fn cut(&mut self, vc: Vc, seating: &Seating) -> Result<Piece, DeskFault>
        // As the locked section of `card_core`, on this line.
        ensures served { OnOk result (self.old.line.owner ≡ Some (holder vc seating.now)) }
        ensures uncut { IfErr result (λ fault. IsUncut self.old.line (holder vc seating.now) fault) }
        ensures journal { IfOk result (λ piece. IsJournalOf self.old.line piece) }
        ensures begun { OnOk result
            (self.new.line ≡ record self.old.line { start = self.old.line.state; entries = [] }) }
        ensures unchanged { OnErr result (self.new.line ≡ self.old.line) }

        ensures piece { IfOk result (λ piece. piece.owner.vc ≡ vc) }
        ensures run { IfOk result (λ piece. IsPiece piece) }
        ensures refused { IfErr result IsOfCut }
    {
        cut(&mut self.line, vc, seating)
    }
}
