//! The reader of a comparison: a field with a mask, a sign, a list, and the channels of a path.

ghost use Rattle.std.specs.Prelude.{◌≡◌, IfOk, IfErr};
ghost use Rattle.rules_text.specs.LineGrammar.{read_channel, read_comma, read_constant, read_dots, read_high, read_low, read_mask, read_offset, read_relation, read_sign, read_slash, with_list, with_range};
ghost use Rattle.rules_text.specs.declared.fault.RuleFaultKind.TheVariants.{NoMemory};
ghost use Rattle.rules_text.specs.SeenTokens.{rule_token_seen};
ghost use Rattle.rules_text.specs.inner.SeenReading.{TakesLineStep, TakesLineStepOrNoMemory, context_seen, list_seen, reading_seen, subject_seen, wants_seen};

use crate::fault::{RuleFaultKind, Step};
use crate::lexer::{Sign, Token};
use crate::line_reader::{Context, LineReader, Wants};
use crate::subject::{
    ListOf, Subject, compared, equal, field_of, number_for, octets_of, relation_of, test_of_list,
};
use crate::test_reader::MOST_COMPARISONS;
use bpf_code::Size;
use rules_cells::{Field, Span};

impl LineReader {
    /// Reads the offset of octets.
    #[tactic(auto, unfolding(crate::specs::LineGrammar::read_offset))]
    pub(crate) fn offset(&mut self, size: Size, token: Token) -> Step
        ensures { TakesLineStep result self.new (read_offset size (reading_seen self.old) (rule_token_seen token)) }
    {
        let field = octets_of(size, token)?;
        self.wants = Wants::Relation(Subject { field, mask: None });
        Ok(())
    }

    /// Reads a token after a field.
    #[tactic(auto, unfolding(crate::specs::LineGrammar::read_relation))]
    pub(crate) fn relation(&mut self, context: Context, subject: Subject, token: Token) -> Step
        ensures { TakesLineStep result self.new (read_relation (context_seen context) (subject_seen subject) (reading_seen self.old) (rule_token_seen token)) }
    {
        match token {
            Token::Mask => {
                self.wants = Wants::Mask(subject);
                Ok(())
            }
            _ => self.sign(context, subject, token),
        }
    }

    /// Reads a mask.
    #[tactic(auto, unfolding(crate::specs::LineGrammar::read_mask))]
    pub(crate) fn mask(&mut self, context: Context, subject: Subject, token: Token) -> Step
        ensures { TakesLineStep result self.new (read_mask (context_seen context) (subject_seen subject) (reading_seen self.old) (rule_token_seen token)) }
    {
        let mask = number_for(token, subject.field, context.side)?;
        self.wants = Wants::Sign(Subject {
            field: subject.field,
            mask: Some(mask),
        });
        Ok(())
    }

    /// Reads a sign, or the first number of a list.
    #[tactic(auto, unfolding(crate::specs::LineGrammar::read_sign))]
    pub(crate) fn sign(&mut self, context: Context, subject: Subject, token: Token) -> Step
        ensures { TakesLineStep result self.new (read_sign (context_seen context) (subject_seen subject) (reading_seen self.old) (rule_token_seen token)) }
    {
        match token {
            Token::Sign(Sign::Equal) => {
                self.wants = Wants::Low(ListOf::Field(subject));
                Ok(())
            }
            Token::Sign(Sign::Unequal) => {
                self.wants = Wants::Low(ListOf::Denied(subject));
                Ok(())
            }
            Token::Sign(sign) => {
                self.wants = Wants::Constant(subject, sign);
                Ok(())
            }
            _ => self.low(context, ListOf::Field(subject), token),
        }
    }

    /// Reads `/` after a path.
    #[tactic(auto, unfolding(crate::specs::LineGrammar::read_slash))]
    pub(crate) fn slash(&mut self, path: u32, token: Token) -> Step
        ensures { TakesLineStep result self.new (read_slash path (reading_seen self.old) (rule_token_seen token)) }
    {
        match token {
            Token::Slash => {
                self.wants = Wants::Channel(path);
                Ok(())
            }
            _ => Err(RuleFaultKind::BadLine),
        }
    }

    /// Reads the channels of a path: all of them, or the first number of a list.
    #[tactic(auto, unfolding(crate::specs::LineGrammar::read_channel))]
    pub(crate) fn channel(&mut self, context: Context, path: u32, token: Token) -> Step
        ensures { TakesLineStepOrNoMemory result self.new (read_channel (context_seen context) path (reading_seen self.old) (rule_token_seen token)) }
    {
        match token {
            Token::Star => self.add(equal(Field::Vpi, path)),
            _ => self.low(context, ListOf::Path(path), token),
        }
    }

    /// Reads the number after a sign.
    #[tactic(auto, unfolding(crate::specs::LineGrammar::read_constant))]
    pub(crate) fn constant(
        &mut self,
        context: Context,
        subject: Subject,
        sign: Sign,
        token: Token,
    ) -> Step
        ensures { TakesLineStepOrNoMemory result self.new (read_constant (context_seen context) (subject_seen subject) sign (reading_seen self.old) (rule_token_seen token)) }
    {
        let k = number_for(token, subject.field, context.side)?;
        self.add(compared(subject, relation_of(sign, k)))
    }

    /// Reads a number of a list.
    #[tactic(auto, unfolding(crate::specs::LineGrammar::read_low))]
    pub(crate) fn low(&mut self, context: Context, of: ListOf, token: Token) -> Step
        ensures { TakesLineStep result self.new (read_low (context_seen context) (list_seen of) (reading_seen self.old) (rule_token_seen token)) }
    {
        let low = number_for(token, field_of(of), context.side)?;
        self.wants = Wants::Dots(of, low);
        Ok(())
    }

    /// Reads a token after a number of a list.
    #[tactic(auto, unfolding(crate::specs::LineGrammar::read_dots))]
    pub(crate) fn dots(&mut self, context: Context, of: ListOf, low: u32, token: Token) -> Step
        ensures { TakesLineStepOrNoMemory result self.new (read_dots (context_seen context) (list_seen of) low (reading_seen self.old) (rule_token_seen token)) }
    {
        match token {
            Token::Dots => {
                self.wants = Wants::High(of, low);
                Ok(())
            }
            _ => {
                self.count(self.wants)?;
                self.comma(context, of, Span { low, high: low }, token)
            }
        }
    }

    /// Counts a range of a list as one comparison of the test, and sets what comes next. Fails if the test has 4096 already.
    #[tactic(auto, unfolding(crate::specs::LineGrammar::with_range))]
    pub(crate) fn count(&mut self, wants: Wants) -> Step
        ensures { TakesLineStep result self.new (with_range (reading_seen self.old) (wants_seen wants)) }
    {
        if self.comparisons >= MOST_COMPARISONS {
            return Err(RuleFaultKind::TooLong);
        }
        self.comparisons += 1;
        self.wants = wants;
        Ok(())
    }

    /// Reads the number after `..`.
    #[tactic(auto, unfolding(crate::specs::LineGrammar::read_high))]
    pub(crate) fn high(&mut self, context: Context, of: ListOf, low: u32, token: Token) -> Step
        ensures { TakesLineStep result self.new (read_high (context_seen context) (list_seen of) low (reading_seen self.old) (rule_token_seen token)) }
    {
        let high = number_for(token, field_of(of), context.side)?;
        if high < low {
            return Err(RuleFaultKind::TooLarge);
        }
        self.count(Wants::Comma(of, Span { low, high }))
    }

    /// Reads a token after a range of a list.
    #[tactic(auto, unfolding(crate::specs::LineGrammar::read_comma))]
    pub(crate) fn comma(&mut self, context: Context, of: ListOf, span: Span, token: Token) -> Step
        ensures { TakesLineStepOrNoMemory result self.new (read_comma (context_seen context) (list_seen of) span (reading_seen self.old) (rule_token_seen token)) }
    {
        match token {
            Token::Comma => {
                self.spans.push(span)?;
                self.wants = Wants::Low(of);
                Ok(())
            }
            _ => {
                self.list(of, span)?;
                self.operator(context, token)
            }
        }
    }

    /// Ends a list with this range, and adds the list to the test.
    #[tactic(auto, unfolding(crate::specs::LineGrammar::with_list))]
    pub(crate) fn list(&mut self, of: ListOf, span: Span) -> Step
        ensures ok { IfOk result (λ _. with_list (list_seen of) span (reading_seen self.old) ≡ reading_seen self.new) }
        ensures err { IfErr result (λ kind. kind ≡ NoMemory) }
    {
        let alloc = self.alloc();
        let others = std::mem::replace(&mut self.spans, Vec::new(alloc));
        let test = test_of_list(alloc, of, span, others)?;
        self.group.add(alloc, test)?;
        self.wants = Wants::Operator;
        Ok(())
    }
}
