//! The names of the rules in a text, both ways.
ghost use Rattle.std.specs.Prelude.{◌≡◌, Option, Some};
ghost use Rattle.deriv_tree.specs.declared.rule.Rule.{Rule as AnyRule};
ghost use Rattle.deriv_tree.specs.Names as spec;

use crate::rule::Rule;

impl Rule {
    /// The name in a text.
    pub fn name(self) -> &'static str
        ensures { result.now ≡ spec.name_of self }
    {
        match self {
            Rule::ELit => "e-lit",
            Rule::EVar => "e-var",
            Rule::ELen => "e-len",
            Rule::EOp => "e-op",
            Rule::EAdd => "e-add",
            Rule::ESub => "e-sub",
            Rule::EMulk => "e-mulk",
            Rule::EMask => "e-mask",
            Rule::EShift => "e-shift",
            Rule::ERemk => "e-remk",
            Rule::EDivk => "e-divk",
            Rule::ECmp => "e-cmp",
            Rule::ENot => "e-not",
            Rule::EBoth => "e-both",
            Rule::EEither => "e-either",
            Rule::EWord => "e-word",
            Rule::EByte => "e-byte",
            Rule::ECut => "e-cut",
            Rule::EGet => "e-get",
            Rule::ETab => "e-tab",
            Rule::ERw => "e-rw",
            Rule::SNote => "s-note",
            Rule::SLet => "s-let",
            Rule::SPut => "s-put",
            Rule::SMove => "s-move",
            Rule::SIf => "s-if",
            Rule::SFor => "s-for",
            Rule::SMap => "s-map",
            Rule::SFold => "s-fold",
        }
    }

    /// The rule that has the name. None exactly where no rule has it.
    pub fn read(text: &str) -> Option<Rule>
        ensures { result ≡ spec.rule_of text.now }
    {
        match expr_rule_of(text) {
            Some(rule) => Some(rule),
            None => stmt_rule_of(text),
        }
    }
}

fn expr_rule_of(text: &str) -> Option<Rule>
    ensures { result ≡ spec.expr_rule_of text.now }
{
    match text {
        "e-lit" => Some(Rule::ELit),
        "e-var" => Some(Rule::EVar),
        "e-len" => Some(Rule::ELen),
        "e-op" => Some(Rule::EOp),
        "e-add" => Some(Rule::EAdd),
        "e-sub" => Some(Rule::ESub),
        "e-mulk" => Some(Rule::EMulk),
        "e-mask" => Some(Rule::EMask),
        "e-shift" => Some(Rule::EShift),
        "e-remk" => Some(Rule::ERemk),
        "e-divk" => Some(Rule::EDivk),
        "e-cmp" => Some(Rule::ECmp),
        "e-not" => Some(Rule::ENot),
        "e-both" => Some(Rule::EBoth),
        "e-either" => Some(Rule::EEither),
        "e-word" => Some(Rule::EWord),
        "e-byte" => Some(Rule::EByte),
        "e-cut" => Some(Rule::ECut),
        "e-get" => Some(Rule::EGet),
        "e-tab" => Some(Rule::ETab),
        "e-rw" => Some(Rule::ERw),
        _ => None,
    }
}

fn stmt_rule_of(text: &str) -> Option<Rule>
    ensures { result ≡ spec.stmt_rule_of text.now }
{
    match text {
        "s-note" => Some(Rule::SNote),
        "s-let" => Some(Rule::SLet),
        "s-put" => Some(Rule::SPut),
        "s-move" => Some(Rule::SMove),
        "s-if" => Some(Rule::SIf),
        "s-for" => Some(Rule::SFor),
        "s-map" => Some(Rule::SMap),
        "s-fold" => Some(Rule::SFold),
        _ => None,
    }
}

/// The name of a rule is read as that rule.
pub fn name_is_read()
    ensures { (rule : AnyRule) → spec.rule_of (spec.name_of rule) ≡ Some rule }
{}
