//! What a model has a limit of. Each count stays at 4294967295 where it is greater.
ghost use Rattle.std.specs.Prelude.{◌≡◌, ◌+◌, ◌*◌, ◌↔◌, max, map, sum, IsNone};
ghost use Rattle.rup_base.specs.Word as words;
ghost use Rattle.rup_base.specs.Gather.{greatest};
ghost use Rattle.model_syntax.specs.Limits as spec;

use crate::expr::{Expr, Scalar};
use crate::program::Model;
use crate::stmt::Stmt;
use rup_base::Limit;

/// The greatest numbers that a model may have.
const STATEMENTS: u32 = 2000;

const DEPTH: u32 = 64;

const BLOCKS: u32 = 16;

const TABLES: u32 = 65536;

/// All statements, inner ones too.
pub fn statements(m: &Model) -> u32
    ensures { result ≡ words.counted (spec.statements m.now) }
{
    block_count(m.body.as_slice())
}

/// The greatest depth of an expression, 0 where there is none. A number, a name or a length has depth 1.
pub fn expression_depth(m: &Model) -> u32
    ensures { result ≡ words.counted (spec.depth m.now) }
{
    block_expr_depth(m.body.as_slice())
}

/// The depth of nested blocks. The outer one has depth 1.
pub fn block_depth(m: &Model) -> u32
    ensures { result ≡ words.counted (spec.blocks m.now) }
{
    deepest_block(m.body.as_slice()).saturating_add(1)
}

/// The bytes of all tables: one for an entry of a byte table, four for one of a word table.
pub fn table_bytes(m: &Model) -> u32
    ensures { result ≡ words.counted (spec.tables m.now) }
{
    block_tables(m.body.as_slice())
}

/// The first limit that the model passes, with what it has of it: at most 2000 statements, expressions of
/// depth 64, blocks of depth 16 and 65536 bytes of tables.
pub fn over_limit(m: &Model) -> Option<(Limit, u32)>
    ensures first { result ≡ spec.over_limit m.now }
    ensures within { IsNone result ↔ spec.Within m.now }
{
    let statements = statements(m);
    if statements > STATEMENTS {
        return Some((Limit::Statements, statements));
    }
    let depth = expression_depth(m);
    if depth > DEPTH {
        return Some((Limit::Depth, depth));
    }
    let blocks = block_depth(m);
    if blocks > BLOCKS {
        return Some((Limit::Blocks, blocks));
    }
    let tables = table_bytes(m);
    if tables > TABLES {
        return Some((Limit::Tables, tables));
    }
    None
}

fn expr_depth(e: &Expr) -> u32
    ensures { result ≡ words.counted (spec.expr_depth e.now) }
{
    match e {
        Expr::Lit(_) | Expr::Var(_) | Expr::Length(_) => 1,
        Expr::Bin(_, left, right) => deeper(expr_depth(left), expr_depth(right)),
        Expr::Test(_, left, right) => deeper(expr_depth(left), expr_depth(right)),
        Expr::Both(left, right) => deeper(expr_depth(left), expr_depth(right)),
        Expr::Either(left, right) => deeper(expr_depth(left), expr_depth(right)),
        Expr::Not(inner) => expr_depth(inner).saturating_add(1),
        Expr::ToWord(inner) => expr_depth(inner).saturating_add(1),
        Expr::ToByte(inner) => expr_depth(inner).saturating_add(1),
        Expr::Get(_, index) => expr_depth(index).saturating_add(1),
        Expr::Tab(_, _, index) => expr_depth(index).saturating_add(1),
    }
}

fn deeper(left: u32, right: u32) -> u32
    ensures { result ≡ words.counted (max left right + 1) }
{
    left.max(right).saturating_add(1)
}

fn expr_tables(e: &Expr) -> u32
    ensures { result ≡ words.counted (spec.expr_tables e.now) }
{
    match e {
        Expr::Lit(_) | Expr::Var(_) | Expr::Length(_) => 0,
        Expr::Bin(_, left, right) => expr_tables(left).saturating_add(expr_tables(right)),
        Expr::Test(_, left, right) => expr_tables(left).saturating_add(expr_tables(right)),
        Expr::Both(left, right) => expr_tables(left).saturating_add(expr_tables(right)),
        Expr::Either(left, right) => expr_tables(left).saturating_add(expr_tables(right)),
        Expr::Not(inner) => expr_tables(inner),
        Expr::ToWord(inner) => expr_tables(inner),
        Expr::ToByte(inner) => expr_tables(inner),
        Expr::Get(_, index) => expr_tables(index),
        Expr::Tab(scalar, entries, index) => {
            size(*scalar, entries.len()).saturating_add(expr_tables(index))
        }
    }
}

/// The bytes of a table.
fn size(scalar: Scalar, entries: usize) -> u32
    ensures { result ≡ words.counted (spec.entry_bytes scalar * entries) }
{
    let entries = entries.min(u32::MAX as usize) as u32;
    match scalar {
        Scalar::Word => entries.saturating_mul(4),
        Scalar::Byte => entries,
        Scalar::Flag => 0,
    }
}

#[cycle(count)]
fn stmt_count(s: &Stmt) -> u32
    ensures { result ≡ words.counted (spec.stmt_count s.now) }
{
    match s {
        Stmt::If(_, _, _, first, second) => block_count(first.as_slice())
            .saturating_add(block_count(second.as_slice()))
            .saturating_add(1),
        Stmt::For(_, _, _, _, _, body) => block_count(body.as_slice()).saturating_add(1),
        Stmt::Let(..) | Stmt::Put(..) | Stmt::Move(..) | Stmt::Map(..) | Stmt::Fold(..) => 1,
    }
}

#[cycle(count)]
fn block_count(stmts: &[Stmt]) -> u32
    ensures { result ≡ words.counted (sum (map spec.stmt_count stmts.now)) }
{
    let mut count: u32 = 0;
    for s in stmts {
        count = count.saturating_add(stmt_count(s));
    }
    count
}

#[cycle(depth)]
fn stmt_expr_depth(s: &Stmt) -> u32
    ensures { result ≡ words.counted (spec.stmt_depth s.now) }
{
    match s {
        Stmt::Let(_, e) | Stmt::Map(_, _, e) | Stmt::Fold(_, _, _, e) => expr_depth(e),
        Stmt::Put(_, index, e) | Stmt::Move(_, _, index, e) => expr_depth(index).max(expr_depth(e)),
        Stmt::If(test, _, _, first, second) => {
            let inner = block_expr_depth(first.as_slice()).max(block_expr_depth(second.as_slice()));
            expr_depth(test).max(inner)
        }
        Stmt::For(_, low, high, _, _, body) => expr_depth(low)
            .max(expr_depth(high))
            .max(block_expr_depth(body.as_slice())),
    }
}

#[cycle(depth)]
fn block_expr_depth(stmts: &[Stmt]) -> u32
    ensures { result ≡ words.counted (greatest (map spec.stmt_depth stmts.now)) }
{
    let mut depth = 0;
    for s in stmts {
        depth = depth.max(stmt_expr_depth(s));
    }
    depth
}

#[cycle(blocks)]
fn stmt_blocks(s: &Stmt) -> u32
    ensures { result ≡ words.counted (spec.stmt_blocks s.now) }
{
    match s {
        Stmt::If(_, _, _, first, second) => {
            deeper(
                deepest_block(first.as_slice()),
                deepest_block(second.as_slice()),
            )
        }
        Stmt::For(_, _, _, _, _, body) => deepest_block(body.as_slice()).saturating_add(1),
        Stmt::Let(..) | Stmt::Put(..) | Stmt::Move(..) | Stmt::Map(..) | Stmt::Fold(..) => 0,
    }
}

#[cycle(blocks)]
fn deepest_block(stmts: &[Stmt]) -> u32
    ensures { result ≡ words.counted (greatest (map spec.stmt_blocks stmts.now)) }
{
    let mut depth = 0;
    for s in stmts {
        depth = depth.max(stmt_blocks(s));
    }
    depth
}

#[cycle(tables)]
fn stmt_tables(s: &Stmt) -> u32
    ensures { result ≡ words.counted (spec.stmt_tables s.now) }
{
    match s {
        Stmt::Let(_, e) | Stmt::Map(_, _, e) | Stmt::Fold(_, _, _, e) => expr_tables(e),
        Stmt::Put(_, index, e) | Stmt::Move(_, _, index, e) => {
            expr_tables(index).saturating_add(expr_tables(e))
        }
        Stmt::If(test, _, _, first, second) => expr_tables(test)
            .saturating_add(block_tables(first.as_slice()))
            .saturating_add(block_tables(second.as_slice())),
        Stmt::For(_, low, high, _, _, body) => expr_tables(low)
            .saturating_add(expr_tables(high))
            .saturating_add(block_tables(body.as_slice())),
    }
}

#[cycle(tables)]
fn block_tables(stmts: &[Stmt]) -> u32
    ensures { result ≡ words.counted (sum (map spec.stmt_tables stmts.now)) }
{
    let mut bytes: u32 = 0;
    for s in stmts {
        bytes = bytes.saturating_add(stmt_tables(s));
    }
    bytes
}
