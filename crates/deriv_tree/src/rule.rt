//! The rules, and the shape of their nodes.
ghost use Rattle.std.specs.Prelude.{◌≡◌, ◌≤◌};
ghost use Rattle.deriv_tree.specs.Shape as spec;

/// A rule by which an expression or a statement is compiled (Rupicola, PLDI 2022, section 3: a lemma of the compiler).
/// The name in a text is `e-` or `s-` and the rest of the variant's name in small letters.
#[derive(Clone, Copy, Debug, PartialEq, Eq)]
pub enum Rule {
    ELit,
    EVar,
    ELen,
    EOp,
    EAdd,
    ESub,
    EMulk,
    EMask,
    EShift,
    ERemk,
    EDivk,
    ECmp,
    ENot,
    EBoth,
    EEither,
    EWord,
    EByte,
    ECut,
    EGet,
    ETab,
    /// An equation that rewrites the expression, whose one kid is for what it becomes.
    ERw,
    /// A fact that is noted. It is of no statement.
    SNote,
    SLet,
    SPut,
    SMove,
    SIf,
    SFor,
    SMap,
    SFold,
}

impl Rule {
    /// Whether it is a rule of expressions. The others are of statements.
    pub fn is_expression(self) -> bool
        ensures { result ≡ spec.is_expression self }
    {
        match self {
            Rule::ELit | Rule::EVar | Rule::ELen | Rule::EOp | Rule::EAdd | Rule::ESub => true,
            Rule::EMulk | Rule::EMask | Rule::EShift | Rule::ERemk | Rule::EDivk => true,
            Rule::ECmp | Rule::ENot | Rule::EBoth | Rule::EEither | Rule::EWord => true,
            Rule::EByte | Rule::ECut | Rule::EGet | Rule::ETab | Rule::ERw => true,
            Rule::SNote | Rule::SLet | Rule::SPut | Rule::SMove => false,
            Rule::SIf | Rule::SFor | Rule::SMap | Rule::SFold => false,
        }
    }

    /// The number of expression nodes that a node of the rule has as kids, at most 2.
    pub fn kids(self) -> usize
        ensures number { result ≡ spec.kids self }
        ensures most { result ≤ 2 }
    {
        match self {
            Rule::ELit | Rule::EVar | Rule::ELen | Rule::SNote => 0,
            Rule::ENot | Rule::EWord | Rule::EByte | Rule::ECut | Rule::EGet | Rule::ETab => 1,
            Rule::ERw | Rule::SLet | Rule::SIf | Rule::SMap | Rule::SFold => 1,
            Rule::EOp | Rule::EAdd | Rule::ESub | Rule::EMulk | Rule::EMask | Rule::EShift => 2,
            Rule::ERemk | Rule::EDivk | Rule::ECmp | Rule::EBoth | Rule::EEither => 2,
            Rule::SPut | Rule::SMove | Rule::SFor => 2,
        }
    }

    /// The number of blocks that a node of the rule has, at most 2.
    pub fn blocks(self) -> usize
        ensures number { result ≡ spec.blocks self }
        ensures most { result ≤ 2 }
    {
        match self {
            Rule::SIf => 2,
            Rule::SFor => 1,
            Rule::ELit | Rule::EVar | Rule::ELen | Rule::EOp | Rule::EAdd | Rule::ESub => 0,
            Rule::EMulk | Rule::EMask | Rule::EShift | Rule::ERemk | Rule::EDivk => 0,
            Rule::ECmp | Rule::ENot | Rule::EBoth | Rule::EEither | Rule::EWord => 0,
            Rule::EByte | Rule::ECut | Rule::EGet | Rule::ETab | Rule::ERw => 0,
            Rule::SNote | Rule::SLet | Rule::SPut | Rule::SMove | Rule::SMap | Rule::SFold => 0,
        }
    }

    /// Whether it is the rule of an equation.
    pub fn is_rewrite(self) -> bool
        ensures { result ≡ spec.is_rewrite self }
    {
        self == Rule::ERw
    }
}
