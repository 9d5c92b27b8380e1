//! What a user is told when the input is not taken, and where in it the cause stands.
//!
//! A `word` is the place of a file's name among the words of the command line; the command is word 0. An
//! `at` is an offset in bytes from the start of the file. Statements, nodes and certificates are numbered
//! from 0.
use crate::text::Text;
use std::fmt;
use thiserror::Error;

/// Why bytes are no text of forms.
#[derive(Clone, Copy, Debug, PartialEq, Eq)]
pub enum TextWhy {
    /// A byte outside a comment that no text has.
    Byte,
    /// A `)` that closes nothing.
    Extra,
    /// A `(` that opens level 257.
    Deep,
    /// The text ends inside a list.
    Unclosed,
}

/// What a model has a limit of.
#[derive(Clone, Copy, Debug, PartialEq, Eq)]
pub enum Limit {
    /// All statements, inner ones too.
    Statements,
    /// The depth of an expression.
    Depth,
    /// The depth of nested blocks.
    Blocks,
    /// The bytes of all tables.
    Tables,
}

/// Where a model is ill typed. Requirements, statements and returns are numbered from 0 in text order.
#[derive(Clone, Copy, Debug, PartialEq, Eq)]
pub enum TypePlace {
    Params,
    Require(u32),
    Statement(u32),
    Return(u32),
}

/// Why a model is ill typed.
#[derive(Clone, Copy, Debug, PartialEq, Eq)]
pub enum TypeWhy {
    /// A parameter, a length name, a listed name or a returned parameter stands twice, or a loop's own name is listed.
    Repeated,
    /// A parameter takes the ninth argument register.
    Registers,
    /// A name is not in scope.
    Unknown,
    /// An array stands where a scalar is wanted.
    NotScalar,
    /// A scalar stands where an array is wanted.
    NotArray,
    /// An expression, or a scalar in it, has another scalar type than is wanted.
    WrongType,
    /// A scalar would take the name of an array in scope, or a moved array a name in scope.
    NameTaken,
    /// A listed name is not in scope at the end of a block, or has another type there.
    Uncarried,
    /// A side of a requirement, or a part of it, passes the limits of linear forms, or there are too many requirements.
    WideForm,
    /// There is a third scalar result.
    Results,
    /// A returned array has not the type of its parameter.
    Owner,
}

/// Which argument does not fit the model or the image.
#[derive(Clone, Copy, Debug, PartialEq, Eq)]
pub enum ArgFault {
    /// There are more or fewer arguments than parameters.
    Count,
    /// The argument of this parameter, from 0, is of another kind or length.
    Param(u32),
    /// The arguments do not meet this requirement, from 0.
    Require(u32),
}

/// What the search could not derive.
#[derive(Debug, Drop)]
pub enum Goal {
    /// An expression, in the canonical spelling.
    Expr(Text),
    /// A statement.
    Stmt,
    /// The results at the end of the model.
    End,
}

/// Why the input is not taken. Each variant has a number, by which it is printed: its place here, from 1.
#[derive(Debug, Drop, Error)]
pub enum Refusal {
    /// The file is no text of forms.
    #[error("word {word} names a file that is no text: at offset {at}, {why}")]
    NotText {
        word: u32,
        at: u32,
        why: TextWhy,
    },
    /// The text is no model: the first form that is not of the kind that its place asks for.
    #[error("the text is no model: at offset {at}, another form is expected")]
    NotModel {
        at: u32,
    },
    /// The model passes a limit.
    #[error("the model passes the limit on {which}: it has {count}")]
    OverLimit {
        which: Limit,
        count: u32,
    },
    /// The model is ill typed.
    #[error("the model is ill typed in {place}: {why}")]
    IllTyped {
        place: TypePlace,
        why: TypeWhy,
    },
    /// The arguments do not fit.
    #[error("the arguments do not fit: {which}")]
    BadArguments {
        which: ArgFault,
    },
    /// The derivation file is no JSON.
    #[error("the derivation is no JSON")]
    NotJson,
    /// The JSON is no derivation: the first entry that is wrong, or the header.
    #[error("the JSON is no derivation: {} is wrong", Entry(*.node))]
    NotDerivation {
        node: Option<u32>,
    },
    /// The derivation lists more or fewer nodes than its entries call for.
    #[error("the derivation lists {listed} nodes and needs {needed}")]
    NodeCount {
        listed: u32,
        needed: u64,
    },
    /// A node is no instance of its rule.
    #[error("node {node} is no instance of its rule: condition {cond} fails")]
    NoInstance {
        node: u32,
        cond: u32,
    },
    /// A certificate does not close its goal.
    #[error("certificate {cert} of node {node} does not close its goal")]
    BadCertificate {
        node: u32,
        cert: u32,
    },
    /// The derivation needs more stack slots than an image has.
    #[error("the derivation needs {count} stack slots, which are too many")]
    OverSlots {
        count: u32,
    },
    /// The bound of a node passes the limits on its degree or its coefficients.
    #[error("the bound of node {node} is too large: its degree is {degree} and its greatest coefficient {coefficient}")]
    OverBound {
        node: u32,
        degree: u32,
        coefficient: u128,
    },
    /// The text is no lemma file.
    #[error("word {word} names a file that is no lemma file: at offset {at}, another form is expected")]
    NotLemma {
        word: u32,
        at: u32,
    },
    /// The search found no rule for a goal.
    #[error("the search is stuck at statement {stmt}: no rule derives {goal}")]
    Stuck {
        stmt: u32,
        goal: Goal,
    },
    /// The derivation has more nodes than the limit.
    #[error("the derivation has {count} nodes, which are too many")]
    OverNodes {
        count: u32,
    },
    /// The file is no image: the first field that is wrong or not whole.
    #[error("the file is no image: the field at offset {at} is wrong")]
    NotImage {
        at: u32,
    },
    /// The array arguments take more memory than the machine gives them.
    #[error("the arrays have {bytes} bytes together, which are too many")]
    ArraysTooLarge {
        bytes: u64,
    },
    /// The code may pass the size that it was given.
    #[error("the code has up to {bytes} bytes, which are too many")]
    OverSize {
        bytes: u32,
    },
    /// A file is longer than its kind may be.
    #[error("word {word} names a file of more than {limit} bytes")]
    TooLong {
        word: u32,
        limit: u32,
    },
}

impl fmt::Display for TextWhy {
    fn fmt<W: fmt::Write>(&self, f: &mut fmt::Formatter<W>) -> fmt::Result {
        match self {
            TextWhy::Byte => write!(f, "a byte that no text has"),
            TextWhy::Extra => write!(f, "a parenthesis that closes nothing"),
            TextWhy::Deep => write!(f, "a list that is nested too deeply"),
            TextWhy::Unclosed => write!(f, "the text ends inside a list"),
        }
    }
}

impl fmt::Display for Limit {
    fn fmt<W: fmt::Write>(&self, f: &mut fmt::Formatter<W>) -> fmt::Result {
        match self {
            Limit::Statements => write!(f, "statements"),
            Limit::Depth => write!(f, "the depth of an expression"),
            Limit::Blocks => write!(f, "the depth of nested blocks"),
            Limit::Tables => write!(f, "the bytes of tables"),
        }
    }
}

impl fmt::Display for TypePlace {
    fn fmt<W: fmt::Write>(&self, f: &mut fmt::Formatter<W>) -> fmt::Result {
        match self {
            TypePlace::Params => write!(f, "the parameters"),
            TypePlace::Require(k) => write!(f, "requirement {k}"),
            TypePlace::Statement(k) => write!(f, "statement {k}"),
            TypePlace::Return(k) => write!(f, "return {k}"),
        }
    }
}

impl fmt::Display for TypeWhy {
    fn fmt<W: fmt::Write>(&self, f: &mut fmt::Formatter<W>) -> fmt::Result {
        match self {
            TypeWhy::Repeated => write!(f, "a name is repeated"),
            TypeWhy::Registers => write!(f, "more than eight registers are taken"),
            TypeWhy::Unknown => write!(f, "a name is unknown"),
            TypeWhy::NotScalar => write!(f, "a name is no scalar"),
            TypeWhy::NotArray => write!(f, "a name is no array"),
            TypeWhy::WrongType => write!(f, "a type is wrong"),
            TypeWhy::NameTaken => write!(f, "a name is taken"),
            TypeWhy::Uncarried => write!(f, "a listed name is not carried over"),
            TypeWhy::WideForm => write!(f, "a linear form is too wide"),
            TypeWhy::Results => write!(f, "there is a third scalar result"),
            TypeWhy::Owner => write!(f, "a returned array has not its parameter's type"),
        }
    }
}

impl fmt::Display for ArgFault {
    fn fmt<W: fmt::Write>(&self, f: &mut fmt::Formatter<W>) -> fmt::Result {
        match self {
            ArgFault::Count => write!(f, "there are too many or too few"),
            ArgFault::Param(k) => write!(
                f,
                "the one of parameter {k} is of another kind or length"
            ),
            ArgFault::Require(k) => write!(f, "requirement {k} is not met"),
        }
    }
}

impl fmt::Display for Goal {
    fn fmt<W: fmt::Write>(&self, f: &mut fmt::Formatter<W>) -> fmt::Result {
        match self {
            Goal::Expr(spelling) => write!(f, "{spelling}"),
            Goal::Stmt => write!(f, "the statement"),
            Goal::End => write!(f, "the results"),
        }
    }
}

/// An entry of a derivation file as it is spoken of: the header, or a node.
#[derive(Clone, Copy)]
struct Entry(Option<u32>);

impl fmt::Display for Entry {
    fn fmt<W: fmt::Write>(&self, f: &mut fmt::Formatter<W>) -> fmt::Result {
        match self.0 {
            None => write!(f, "the header"),
            Some(node) => write!(f, "node {node}"),
        }
    }
}
