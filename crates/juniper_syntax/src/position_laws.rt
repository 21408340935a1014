//! Laws of errors. Each function does nothing; its contract is the law.

ghost use Rattle.std.specs.Prelude.{◌≡◌, true};
ghost use Rattle.juniper_syntax.specs.Refusals.{view_fault, view_refusal};
ghost use Rattle.juniper_syntax.specs.RuleView.{view_rule_error};

use crate::error::{LexerError, ParseError};
use crate::rule::RuleError;

/// `==` says that both are of one kind, and that the escape sequences are equal.
pub fn equal_faults_show_the_same(a: &LexerError, b: &LexerError)
    ensures equal { ⟦<LexerError as PartialEq>⟧.eq a.now b.now ≡ true → view_fault a.now ≡ view_fault b.now }
    ensures same { view_fault a.now ≡ view_fault b.now → ⟦<LexerError as PartialEq>⟧.eq a.now b.now ≡ true }
{}

/// `==` says that both are of one kind, and that the errors inside are equal.
pub fn equal_refusals_show_the_same(a: &ParseError, b: &ParseError)
    ensures equal { ⟦<ParseError as PartialEq>⟧.eq a.now b.now ≡ true → view_refusal a.now ≡ view_refusal b.now }
    ensures same { view_refusal a.now ≡ view_refusal b.now → ⟦<ParseError as PartialEq>⟧.eq a.now b.now ≡ true }
{}

/// `==` says that the messages and the places are equal.
pub fn equal_rule_errors_show_the_same(a: &RuleError, b: &RuleError)
    ensures equal { ⟦<RuleError as PartialEq>⟧.eq a.now b.now ≡ true → view_rule_error a.now ≡ view_rule_error b.now }
    ensures same { view_rule_error a.now ≡ view_rule_error b.now → ⟦<RuleError as PartialEq>⟧.eq a.now b.now ≡ true }
{}
