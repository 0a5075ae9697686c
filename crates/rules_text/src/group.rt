//! Tests that are put together by `and`, `or` and `not`.

ghost use Rattle.std.specs.Prelude.{◌≡◌, [], ◌∷◌, ◌++◌, IfOk};
ghost use Rattle.rules_cells.specs.declared.test.Test.{AllOf, AnyOf};
ghost use Rattle.rules_text.specs.LineGrammar.{and_with, or_with, group_after_not, group_after_or, group_test, group_with, negated_if, no_group};
ghost use Rattle.rules_text.specs.RulesRead.{conjunction, disjunction, joined_by_and, joined_by_or, test_read, two_tests};
ghost use Rattle.rules_text.specs.inner.SeenReading.{group_seen, some_test_seen};

use rules_cells::Test;
use std::alloc::{AllocError, Global};

/// What was read of a test, or of what is in a parenthesis: alternatives that `or` joins. The last of them may get more parts.
#[derive(Drop)]
pub(crate) struct Group {
    /// The alternatives before the last.
    pub alternatives: Option<Test>,
    /// The parts of the last alternative, which `and` joins. None at first and right after `or`.
    pub last_alternative: Option<Test>,
    /// Whether `not` comes before the next part.
    pub negated: bool,
}

impl Group {
    /// Returns the group without parts.
    pub(crate) fn new() -> Group
        ensures { group_seen result ≡ no_group }
    {
        Group {
            alternatives: None,
            last_alternative: None,
            negated: false,
        }
    }

    /// Adds a part.
    pub(crate) fn add(&mut self, alloc: Global, test: Test) -> Result<(), AllocError>
        ensures { IfOk result (λ _. group_seen self.new ≡ group_with (group_seen self.old) (test_read test)) }
    {
        let part = negated(alloc, self.negated, test)?;
        let last_alternative = self.last_alternative.take();
        self.last_alternative = Some(and_with(alloc, last_alternative, part)?);
        self.negated = false;
        Ok(())
    }

    /// Ends the last alternative, after which `or` was read.
    pub(crate) fn alternate(&mut self, alloc: Global) -> Result<(), AllocError>
        ensures { IfOk result (λ _. group_seen self.new ≡ group_after_or (group_seen self.old)) }
    {
        let alternatives = self.alternatives.take();
        let last_alternative = self.last_alternative.take();
        self.alternatives = or_with(alloc, alternatives, last_alternative)?;
        Ok(())
    }

    /// Denies the next part, or denies it no more: `not` was read.
    pub(crate) fn negate(&mut self)
        ensures { group_seen self.new ≡ group_after_not (group_seen self.old) }
    {
        self.negated = !self.negated;
    }

    /// The whole test, if there is one.
    pub(crate) fn whole(self, alloc: Global) -> Result<Option<Test>, AllocError>
        ensures { IfOk result (λ test. some_test_seen test ≡ group_test (group_seen self)) }
    {
        or_with(alloc, self.alternatives, self.last_alternative)
    }
}

/// The test, or if `negated` that the test doesn't hold.
fn negated(alloc: Global, negated: bool, test: Test) -> Result<Test, AllocError>
    ensures { IfOk result (λ part. test_read part ≡ negated_if negated (test_read test)) }
{
    if negated {
        Ok(Test::Not(Box::new(alloc, test)?))
    } else {
        Ok(test)
    }
}

/// The list of these two tests.
fn two(alloc: Global, one: Test, other: Test) -> Result<Vec<Test>, AllocError>
    ensures { IfOk result (λ tests. tests.items ≡ one ∷ other ∷ []) }
{
    let mut tests = Vec::with_capacity(alloc, 2)?;
    tests.push(one)?;
    tests.push(other)?;
    Ok(tests)
}

/// These tests, and one more at the end.
fn one_more(tests: Vec<Test>, test: Test) -> Result<Vec<Test>, AllocError>
    ensures { IfOk result (λ more. more.items ≡ tests.items ++ test ∷ []) }
{
    let mut tests = tests;
    tests.push(test)?;
    Ok(tests)
}

/// The test that both hold.
pub(crate) fn all_of_two(alloc: Global, one: Test, other: Test) -> Result<Test, AllocError>
    ensures { IfOk result (λ both. test_read both ≡ conjunction (two_tests (test_read one) (test_read other))) }
{
    Ok(Test::AllOf(two(alloc, one, other)?))
}

/// The test that at least one of the two holds.
pub(crate) fn any_of_two(alloc: Global, one: Test, other: Test) -> Result<Test, AllocError>
    ensures { IfOk result (λ either. test_read either ≡ disjunction (two_tests (test_read one) (test_read other))) }
{
    Ok(Test::AnyOf(two(alloc, one, other)?))
}

/// The test that each of these tests holds, and also one more.
fn one_more_of_all(tests: Vec<Test>, test: Test) -> Result<Test, AllocError>
    ensures { IfOk result (λ both. test_read both ≡ joined_by_and (test_read (AllOf tests)) (test_read test)) }
{
    Ok(Test::AllOf(one_more(tests, test)?))
}

/// The test that at least one of these tests holds, or one more.
fn one_more_of_any(tests: Vec<Test>, test: Test) -> Result<Test, AllocError>
    ensures { IfOk result (λ either. test_read either ≡ joined_by_or (test_read (AnyOf tests)) (test_read test)) }
{
    Ok(Test::AnyOf(one_more(tests, test)?))
}

/// `parts and test`, or `test` if there are no parts. A chain of `and` is one list, however long it is.
fn and_with(alloc: Global, parts: Option<Test>, test: Test) -> Result<Test, AllocError>
    ensures { IfOk result (λ both. test_read both ≡ and_with (some_test_seen parts) (test_read test)) }
{
    match parts {
        None => Ok(test),
        Some(parts) => joined_by_and(alloc, parts, test),
    }
}

/// `parts and test`. An `AllOf` gets one more test; any other test becomes the first of a list of two.
fn joined_by_and(alloc: Global, parts: Test, test: Test) -> Result<Test, AllocError>
    ensures { IfOk result (λ both. test_read both ≡ joined_by_and (test_read parts) (test_read test)) }
{
    match parts {
        Test::AllOf(tests) => one_more_of_all(tests, test),
        Test::Any => all_of_two(alloc, Test::Any, test),
        Test::F5 => all_of_two(alloc, Test::F5, test),
        Test::User => all_of_two(alloc, Test::User, test),
        Test::Compare {
            field,
            mask,
            relation,
        } => all_of_two(
            alloc,
            Test::Compare {
                field,
                mask,
                relation,
            },
            test,
        ),
        Test::Not(denied) => all_of_two(alloc, Test::Not(denied), test),
        Test::AnyOf(tests) => all_of_two(alloc, Test::AnyOf(tests), test),
    }
}

/// `alternatives or last_alternative`, or the one of them that there is. A chain of `or` is one list, too.
fn or_with(
    alloc: Global,
    alternatives: Option<Test>,
    last_alternative: Option<Test>,
) -> Result<Option<Test>, AllocError>
    ensures { IfOk result (λ test. some_test_seen test ≡ or_with (some_test_seen alternatives) (some_test_seen last_alternative)) }
{
    match (alternatives, last_alternative) {
        (None, last_alternative) => Ok(last_alternative),
        (Some(alternatives), None) => Ok(Some(alternatives)),
        (Some(alternatives), Some(last_alternative)) => Ok(Some(joined_by_or(
            alloc,
            alternatives,
            last_alternative,
        )?)),
    }
}

/// `alternatives or last_alternative`. An `AnyOf` gets one more test; any other test becomes the first of a list of two.
fn joined_by_or(
    alloc: Global,
    alternatives: Test,
    last_alternative: Test,
) -> Result<Test, AllocError>
    ensures { IfOk result (λ test. test_read test ≡ joined_by_or (test_read alternatives) (test_read last_alternative)) }
{
    match alternatives {
        Test::AnyOf(tests) => one_more_of_any(tests, last_alternative),
        Test::Any => any_of_two(alloc, Test::Any, last_alternative),
        Test::F5 => any_of_two(alloc, Test::F5, last_alternative),
        Test::User => any_of_two(alloc, Test::User, last_alternative),
        Test::Compare {
            field,
            mask,
            relation,
        } => any_of_two(
            alloc,
            Test::Compare {
                field,
                mask,
                relation,
            },
            last_alternative,
        ),
        Test::Not(denied) => any_of_two(alloc, Test::Not(denied), last_alternative),
        Test::AllOf(tests) => any_of_two(alloc, Test::AllOf(tests), last_alternative),
    }
}
