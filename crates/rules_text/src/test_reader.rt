//! The reader of a test: words, `and`, `or`, `not`, parentheses, and the end of the test.

ghost use Rattle.std.specs.Prelude.{◌≡◌, ◌≢◌, Ok, Err, IfOk, IfErr};
ghost use Rattle.rules_text.specs.LineGrammar.{no_group, read_operator, read_unit, whole_test, with_block, with_closed_parenthesis, with_head, with_open_parenthesis, with_unit};
ghost use Rattle.rules_text.specs.RulesRead.{test_read};
ghost use Rattle.rules_text.specs.declared.fault.RuleFaultKind.TheVariants.{NoMemory};
ghost use Rattle.rules_text.specs.SeenTokens.{class_seen, rule_token_seen};
ghost use Rattle.rules_text.specs.inner.SeenReading.{TakesLineStepOrNoMemory, context_seen, group_seen, reading_seen};

use crate::class::{Class, test_of};
use crate::fault::{RuleFaultKind, Step};
use crate::group::Group;
use crate::lexer::Token;
use crate::line_reader::{Context, LineReader, Statement, Wants};
use crate::subject::{Subject, header_field, number_for};
use rules_cells::{Field, RuleLine, Test};

/// The maximum number of comparisons, words and ranges of a test.
pub(crate) const MOST_COMPARISONS: usize = 4096;

/// The maximum depth of nested blocks and parentheses.
const MOST_DEEP: usize = 64;

impl LineReader {
    /// Reads a token where a unit of a test begins.
    #[tactic(auto, unfolding(crate::specs::LineGrammar::read_unit))]
    pub(crate) fn unit(&mut self, context: Context, column: usize, token: Token) -> Step
        ensures { TakesLineStepOrNoMemory result self.new (read_unit (context_seen context) column (reading_seen self.old) (rule_token_seen token)) }
    {
        match token {
            Token::Not => {
                self.group.negate();
                self.wants = Wants::Unit;
                Ok(())
            }
            Token::LeftParenthesis => self.open_parenthesis(context, column),
            Token::Test(class) => self.word(class),
            Token::Field(name) => {
                let field = header_field(context.side, name)?;
                self.wants = Wants::Relation(Subject { field, mask: None });
                Ok(())
            }
            Token::Octets(size) => {
                self.wants = Wants::Offset(size);
                Ok(())
            }
            _ => {
                let path = number_for(token, Field::Vpi, context.side)?;
                self.wants = Wants::Slash(path);
                Ok(())
            }
        }
    }

    /// Adds a word that is a test.
    pub(crate) fn word(&mut self, class: Class) -> Step
        ensures { TakesLineStepOrNoMemory result self.new (with_unit (reading_seen self.old) (class_seen class)) }
    {
        let alloc = self.alloc();
        let test = test_of(alloc, class)?;
        self.add(test)
    }

    /// Opens a parenthesis.
    #[tactic(auto, unfolding(crate::specs::LineGrammar::with_open_parenthesis))]
    pub(crate) fn open_parenthesis(&mut self, context: Context, column: usize) -> Step
        ensures { TakesLineStepOrNoMemory result self.new (with_open_parenthesis (context_seen context) column (reading_seen self.old)) }
    {
        if context.blocks >= MOST_DEEP || self.around.len() >= MOST_DEEP - context.blocks {
            return Err(RuleFaultKind::TooDeep);
        }
        if self.around.is_empty() {
            self.outermost = column;
        }
        let around = std::mem::replace(&mut self.group, Group::new());
        self.around.push(around)?;
        self.wants = Wants::Unit;
        Ok(())
    }

    /// Adds a unit to the test.
    #[tactic(auto, unfolding(crate::specs::LineGrammar::with_unit))]
    pub(crate) fn add(&mut self, test: Test) -> Step
        ensures { TakesLineStepOrNoMemory result self.new (with_unit (reading_seen self.old) (test_read test)) }
    {
        if self.comparisons >= MOST_COMPARISONS {
            return Err(RuleFaultKind::TooLong);
        }
        let alloc = self.alloc();
        self.group.add(alloc, test)?;
        self.comparisons += 1;
        self.wants = Wants::Operator;
        Ok(())
    }

    /// Reads a token after a unit.
    #[tactic(auto, unfolding(crate::specs::LineGrammar::read_operator))]
    pub(crate) fn operator(&mut self, context: Context, token: Token) -> Step
        ensures { TakesLineStepOrNoMemory result self.new (read_operator (context_seen context) (reading_seen self.old) (rule_token_seen token)) }
    {
        match token {
            Token::And => {
                self.wants = Wants::Unit;
                Ok(())
            }
            Token::Or => {
                let alloc = self.alloc();
                self.group.alternate(alloc)?;
                self.wants = Wants::Unit;
                Ok(())
            }
            Token::RightParenthesis => self.close_parenthesis(),
            Token::LeftBrace => self.block(context),
            Token::Arrow => self.head(),
            _ => Err(RuleFaultKind::BadLine),
        }
    }

    /// Closes a parenthesis.
    #[tactic(auto, unfolding(crate::specs::LineGrammar::with_closed_parenthesis))]
    pub(crate) fn close_parenthesis(&mut self) -> Step
        ensures { TakesLineStepOrNoMemory result self.new (with_closed_parenthesis (reading_seen self.old)) }
    {
        let alloc = self.alloc();
        let Some(around) = self.around.pop() else {
            return Err(RuleFaultKind::Unbalanced);
        };
        let inner = std::mem::replace(&mut self.group, around);
        match inner.whole(alloc)? {
            None => Err(RuleFaultKind::BadLine),
            Some(test) => {
                self.group.add(alloc, test)?;
                self.wants = Wants::Operator;
                Ok(())
            }
        }
    }

    /// Takes the whole test. `Unbalanced` if a parenthesis is still open.
    #[tactic(auto, unfolding(crate::specs::LineGrammar::whole_test))]
    pub(crate) fn whole(&mut self) -> Result<Test, RuleFaultKind>
        ensures ok { IfOk result (λ test. whole_test (reading_seen self.old) ≡ Ok (test_read test)) }
        ensures rest { IfOk result (λ _. self.new ≡ record self.old { group = self.new.group }) }
        ensures group { IfOk result (λ _. group_seen self.new.group ≡ no_group) }
        ensures err { IfErr result (λ kind. kind ≢ NoMemory → whole_test (reading_seen self.old) ≡ Err kind) }
    {
        if !self.around.is_empty() {
            return Err(RuleFaultKind::Unbalanced);
        }
        let group = std::mem::replace(&mut self.group, Group::new());
        match group.whole(self.alloc())? {
            None => Err(RuleFaultKind::BadLine),
            Some(test) => Ok(test),
        }
    }

    /// Begins a block with the test.
    #[tactic(auto, unfolding(crate::specs::LineGrammar::with_block))]
    pub(crate) fn block(&mut self, context: Context) -> Step
        ensures { TakesLineStepOrNoMemory result self.new (with_block (context_seen context) (reading_seen self.old)) }
    {
        let test = self.whole()?;
        if context.blocks >= MOST_DEEP {
            return Err(RuleFaultKind::TooDeep);
        }
        self.statement = Statement::Line(RuleLine::Block { test });
        self.wants = Wants::End;
        Ok(())
    }

    /// Keeps the test of a rule, after which `->` was read.
    #[tactic(auto, unfolding(crate::specs::LineGrammar::with_head))]
    pub(crate) fn head(&mut self) -> Step
        ensures { TakesLineStepOrNoMemory result self.new (with_head (reading_seen self.old)) }
    {
        let test = self.whole()?;
        self.test = test;
        self.wants = Wants::Value;
        Ok(())
    }
}
