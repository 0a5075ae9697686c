//! The reader of a line, token by token.

ghost use Rattle.std.specs.Prelude.{◌≡◌, []};
ghost use Rattle.rules_text.specs.LineGrammar.{LineContext, read_arrow, read_awaited, read_only_value, read_side, read_start, read_token, read_value};
ghost use Rattle.rules_text.specs.Names.{first_awaited, form_start};
ghost use Rattle.rules_text.specs.TextOfRules.{fault_column, statement_from};
ghost use Rattle.rules_text.specs.declared.fault.RuleFaultKind.TheVariants.{Unbalanced};
ghost use Rattle.rules_text.specs.SeenTokens.{rule_token_seen};
ghost use Rattle.rules_text.specs.inner.SeenReading.{TakesLineStep, TakesLineStepOrNoMemory, context_seen, form_seen, reading_seen, statement_found, wants_seen};

use crate::fault::{RuleFault, RuleFaultKind, Step, fault_in_line};
use crate::group::Group;
use crate::lexer::{Sign, Token};
use crate::names::Form;
use crate::subject::{ListOf, Subject, value_of};
use bpf_code::Size;
use rules_cells::{Field, Octets, RuleLine, Span, Test};
use std::alloc::Global;
use upc_cell::Side;

/// What may come next in a line.
#[derive(Clone, Copy)]
pub(crate) enum Wants {
    /// The first token.
    Start,
    /// A unit of a test: a word that is a test, a field, octets, a path, `not` or `(`.
    Unit,
    /// `and`, `or`, a closing parenthesis or the end of the test.
    Operator,
    /// The offset of octets.
    Offset(Size),
    /// After a field: `&`, a sign or a number.
    Relation(Subject),
    /// The mask of a field.
    Mask(Subject),
    /// After a mask: a sign or a number.
    Sign(Subject),
    /// The number after a sign.
    Constant(Subject, Sign),
    /// After a number of a list: `..`, `,` or what comes after a unit.
    Dots(ListOf, u32),
    /// The number after `..`.
    High(ListOf, u32),
    /// After a range: `,` or what comes after a unit.
    Comma(ListOf, Span),
    /// A number of a list, after `,` or a sign.
    Low(ListOf),
    /// `/` after a path.
    Slash(u32),
    /// The channels of a path: `*` or a number.
    Channel(u32),
    /// `->` after `otherwise`.
    Arrow,
    /// The value of a rule.
    Value,
    /// A value, and nothing after it: that of `otherwise`, or the number of a contract.
    OnlyValue,
    /// The side.
    Side,
    /// Nothing more.
    End,
}

/// What a line says.
#[derive(Drop)]
pub(crate) enum Statement {
    /// Nothing: the line has no token.
    Blank,
    /// The side at which headers are read.
    Side(Side),
    /// A line of rules.
    Line(RuleLine),
    /// A value alone: the one after `otherwise ->`, or the number of a contract.
    Value(u32),
}

/// What the lines before a line say, as far as its reading depends on them.
#[derive(Clone, Copy)]
pub(crate) struct Context {
    /// The side at which headers are read.
    pub side: Side,
    /// How many blocks are open.
    pub blocks: usize,
    /// Whether a line with a token was read.
    pub begun: bool,
    /// How many tokens names may still add.
    pub room: usize,
}

/// What was read of a line so far.
#[derive(Drop)]
pub(crate) struct LineReader {
    /// What comes next.
    pub wants: Wants,
    /// What was read of the test, or of what is in the innermost open parenthesis.
    pub group: Group,
    /// What was read around each open parenthesis, the outermost first.
    pub around: Vec<Group>,
    /// The column of the outermost open parenthesis, counted from 1.
    pub outermost: usize,
    /// The ranges of a list before the last comma.
    pub spans: Vec<Span>,
    /// How many comparisons, words that are tests and ranges of lists the test has so far.
    pub comparisons: usize,
    /// The whole test of a rule, once `->` was read.
    pub test: Test,
    /// The statement of the line, once it was read.
    pub statement: Statement,
}

/// What a line, a value or a definition begins with.
fn first_wants(form: Form) -> Wants
    ensures { wants_seen result ≡ first_awaited (form_seen form) }
{
    match form {
        Form::Rule => Wants::Start,
        Form::Value => Wants::OnlyValue,
        Form::Test => Wants::Unit,
        // The field that the numbers are compared with is known only where the name is used. Until then each number of 32 bits fits.
        Form::List => Wants::Low(ListOf::Field(Subject {
            field: Field::Octets(Octets {
                size: Size::Word,
                at: 0,
            }),
            mask: None,
        })),
    }
}

impl LineReader {
    /// Returns the reader of a line, or of what a line gives a name.
    pub(crate) fn new(alloc: Global, form: Form) -> LineReader
        ensures { reading_seen result ≡ form_start (form_seen form) }
    {
        LineReader {
            wants: first_wants(form),
            group: Group::new(),
            around: Vec::new(alloc),
            outermost: 0,
            spans: Vec::new(alloc),
            comparisons: 0,
            test: Test::Any,
            statement: Statement::Blank,
        }
    }

    /// Where memory comes from.
    pub(crate) fn alloc(&self) -> Global {
        *self.spans.allocator()
    }

    /// Reads a token at a column, counted from 1.
    pub(crate) fn read(&mut self, context: Context, column: usize, token: Token) -> Step
        ensures { TakesLineStepOrNoMemory result self.new (read_token (context_seen context) column (reading_seen self.old) (rule_token_seen token)) }
    {
        if token.is_name() {
            return Err(RuleFaultKind::UnknownName);
        }
        if token.lacks_room() {
            return Err(RuleFaultKind::TooLong);
        }
        self.read_known(context, column, token)
    }

    /// Reads a token that `read` doesn't refuse at once: no unknown name, and no name whose tokens are more than names may add.
    #[tactic(auto, unfolding(crate::specs::LineGrammar::read_awaited))]
    fn read_known(&mut self, context: Context, column: usize, token: Token) -> Step
        ensures { TakesLineStepOrNoMemory result self.new (read_awaited (wants_seen self.old.wants) (context_seen context) column (reading_seen self.old) (rule_token_seen token)) }
    {
        match self.wants {
            Wants::Start => self.start(context, column, token),
            Wants::Unit => self.unit(context, column, token),
            Wants::Operator => self.operator(context, token),
            Wants::Offset(size) => self.offset(size, token),
            Wants::Relation(subject) => self.relation(context, subject, token),
            Wants::Mask(subject) => self.mask(context, subject, token),
            Wants::Sign(subject) => self.sign(context, subject, token),
            Wants::Constant(subject, sign) => self.constant(context, subject, sign, token),
            Wants::Dots(of, low) => self.dots(context, of, low, token),
            Wants::High(of, low) => self.high(context, of, low, token),
            Wants::Comma(of, span) => self.comma(context, of, span, token),
            Wants::Low(of) => self.low(context, of, token),
            Wants::Slash(path) => self.slash(path, token),
            Wants::Channel(path) => self.channel(context, path, token),
            Wants::Arrow => self.arrow(token),
            Wants::Value => self.value(token),
            Wants::OnlyValue => self.only_value(token),
            Wants::Side => self.side_name(token),
            Wants::End => Err(RuleFaultKind::BadLine),
        }
    }

    /// The statement of the line, whose last token ends just before this column. `BadLine` if something more has to come.
    #[tactic(auto, unfolding(crate::specs::TextOfRules::statement_from))]
    pub(crate) fn finish(self, column: usize) -> Result<Statement, RuleFault>
        ensures { (context : LineContext) → statement_found result ≡ statement_from context (reading_seen self) column [] }
    {
        match self.wants {
            Wants::Start | Wants::End => Ok(self.statement),
            _ => Err(fault_in_line(RuleFaultKind::BadLine, column)),
        }
    }

    /// The column of the fault `Unbalanced`, should the token at `column` be one: that of the outermost open parenthesis, or of the token
    /// if none is open.
    pub(crate) fn unbalanced_at(&self, column: usize) -> usize
        ensures { result ≡ fault_column (reading_seen self.now) Unbalanced column }
    {
        if self.around.is_empty() {
            column
        } else {
            self.outermost
        }
    }

    /// Reads the first token of a line.
    #[tactic(auto, unfolding(crate::specs::LineGrammar::read_start))]
    fn start(&mut self, context: Context, column: usize, token: Token) -> Step
        ensures { TakesLineStepOrNoMemory result self.new (read_start (context_seen context) column (reading_seen self.old) (rule_token_seen token)) }
    {
        match token {
            Token::Otherwise => {
                if context.blocks > 0 {
                    return Err(RuleFaultKind::BadLine);
                }
                self.wants = Wants::Arrow;
                Ok(())
            }
            Token::Side => {
                if context.begun {
                    return Err(RuleFaultKind::BadLine);
                }
                self.wants = Wants::Side;
                Ok(())
            }
            Token::RightBrace => {
                if context.blocks == 0 {
                    return Err(RuleFaultKind::Unbalanced);
                }
                self.statement = Statement::Line(RuleLine::End);
                self.wants = Wants::End;
                Ok(())
            }
            _ => self.unit(context, column, token),
        }
    }

    /// Reads `->` after `otherwise`.
    #[tactic(auto, unfolding(crate::specs::LineGrammar::read_arrow))]
    fn arrow(&mut self, token: Token) -> Step
        ensures { TakesLineStep result self.new (read_arrow (reading_seen self.old) (rule_token_seen token)) }
    {
        match token {
            Token::Arrow => {
                self.wants = Wants::OnlyValue;
                Ok(())
            }
            _ => Err(RuleFaultKind::BadLine),
        }
    }

    /// Reads the value of a rule.
    #[tactic(auto, unfolding(crate::specs::LineGrammar::read_value))]
    fn value(&mut self, token: Token) -> Step
        ensures { TakesLineStep result self.new (read_value (reading_seen self.old) (rule_token_seen token)) }
    {
        let value = value_of(token)?;
        let test = std::mem::replace(&mut self.test, Test::Any);
        self.statement = Statement::Line(RuleLine::Rule { test, value });
        self.wants = Wants::End;
        Ok(())
    }

    /// Reads the value of `otherwise`, or the number of a contract.
    #[tactic(auto, unfolding(crate::specs::LineGrammar::read_only_value))]
    fn only_value(&mut self, token: Token) -> Step
        ensures { TakesLineStep result self.new (read_only_value (reading_seen self.old) (rule_token_seen token)) }
    {
        let value = value_of(token)?;
        self.statement = Statement::Value(value);
        self.wants = Wants::End;
        Ok(())
    }

    /// Reads the side.
    #[tactic(auto, unfolding(crate::specs::LineGrammar::read_side))]
    fn side_name(&mut self, token: Token) -> Step
        ensures { TakesLineStep result self.new (read_side (reading_seen self.old) (rule_token_seen token)) }
    {
        match token {
            Token::Uni => {
                self.statement = Statement::Side(Side::Uni);
                self.wants = Wants::End;
                Ok(())
            }
            Token::Nni => {
                self.statement = Statement::Side(Side::Nni);
                self.wants = Wants::End;
                Ok(())
            }
            _ => Err(RuleFaultKind::BadLine),
        }
    }
}
