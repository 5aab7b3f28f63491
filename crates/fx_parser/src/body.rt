//! Temps and results of a function, behind its `require`.
//!
//! The nodes are counted as they come, up to one past the limit, so that no tree is walked again. The trap: the fault
//! of a tree that is too high is found at the token behind its expression, and loses there to some others.
ghost use Rattle.std.specs.Prelude.{◌≡◌, ◌≤◌, ◌<◌, ◌+◌, ◌^◌, length, map, min, IfOk, [], ◌∷◌, ◌++◌, Ok, None};
ghost use Rattle.fx_lexer.specs.Faults.{GivesParsed};
ghost use Rattle.fx_cursor.specs.Views.{lexemes};
ghost use Rattle.fx_expressions.specs.Views.{operand_of};
ghost use Rattle.fx_parser.specs.Views.{body_value, results_value, HasBodyRoom};
ghost use Rattle.fx_parser.specs.Behind.{GoesOn, val_behind};
ghost use Rattle.fx_grammar.specs.Steps.{name_place};
ghost use Rattle.fx_expr.specs.TreeOf.{tree};
ghost use Rattle.fx_grammar.specs.Operands.{is_high};
ghost use Rattle.fx_grammar.specs.Expressions.{expr_at};
ghost use Rattle.fx_grammar.specs.Steps.{past_semicolon};
ghost use Rattle.fx_grammar.specs.Operands.{tree_or};
ghost use Rattle.fx_grammar.specs.Bodies.{too_high, whole_at, typed_at, with_temp, val_at, vals_at, known_of, single_high, single_at, element_at, tuple_at, result_at};

use fx_cursor::{
    Names, Parsed, Rule, behind, free, listed, past_semicolon, peek, place_at, real, repeated,
    want, with_name, wrong,
};
use fx_expr::Expr;
use fx_expressions::{Context, Operand, expression, is_high, tree_or};
use fx_grammar::Head;
use fx_lexer::{SourceFault, SourceKind, Token};
use fx_num::{NODE_LIMIT, TEMP_LIMIT};
use std::alloc::Global;

// Lists count in `usize`.
const TEMPS: usize = TEMP_LIMIT as usize;

/// A temp and what it stands for.
#[derive(Drop)]
pub struct Temp<'a> {
    pub name: &'a str,
    pub expr: Expr,
}

/// What is known behind the `require`, and what the vals add.
#[derive(Drop)]
pub struct Body<'a> {
    pub names: Names<'a>,
    pub inputs: u32,
    pub states: u32,
    pub temps: Vec<Temp<'a>>,
    pub nodes: u32,
}

/// The results, and the nodes with them.
#[derive(Drop)]
pub struct Results {
    pub trees: Vec<Expr>,
    pub nodes: u32,
}

fn with_nodes(a: u32, b: u32) -> u32
    ensures { result ≡ min 4001 (a + b) }
{
    if a <= NODE_LIMIT && b <= NODE_LIMIT && a + b <= NODE_LIMIT {
        a + b
    } else {
        NODE_LIMIT + 1
    }
}

/// The fault of a tree that is too high, found at the token behind it.
fn too_high(end: u32, first: u32, tokens: &[Token<'_>]) -> SourceFault
    ensures { result ≡ too_high end first (lexemes tokens.now) }
{
    if peek(tokens) == Head::Unsupported {
        wrong(end, tokens)
    } else {
        SourceFault::at(first, SourceKind::TooDeep)
    }
}

fn read<'t, 'a>(
    alloc: Global,
    end: u32,
    outside: bool,
    body: &Body<'_>,
    tokens: &'t [Token<'a>],
) -> Parsed<'t, 'a, Operand>
    requires { length body.now.names < 2 ^ 32 }
    ensures value { GivesParsed (λ x. (operand_of x.0, lexemes x.1.now)) result
        (expr_at (known_of end (body_value body.now)) outside 200 (lexemes tokens.now)) }
    ensures shorter { IfOk result (λ x. length x.1.now < length tokens.now) }
{
    let context = Context {
        alloc,
        names: &body.names,
        inputs: body.inputs,
        states: body.states,
        end,
    };
    expression(&context, outside, tokens)
}

/// A whole expression, that isn't too high.
#[tactic(auto, unfolding(fx_grammar::specs::Bodies::whole_at))]
fn whole<'t, 'a>(
    alloc: Global,
    end: u32,
    body: &Body<'_>,
    tokens: &'t [Token<'a>],
) -> Parsed<'t, 'a, Operand>
    requires { length body.now.names < 2 ^ 32 }
    ensures value { GivesParsed (λ x. (operand_of x.0, lexemes x.1.now)) result
        (whole_at end (body_value body.now) (lexemes tokens.now)) }
    ensures shorter { IfOk result (λ x. length x.1.now < length tokens.now) }
{
    let (operand, rest) = read(alloc, end, true, body, tokens)?;
    if is_high(&operand) {
        return Err(too_high(end, place_at(end, tokens), rest));
    }
    Ok((operand, rest))
}

/// Behind the type that may come next.
#[tactic(auto, unfolding(fx_grammar::specs::Bodies::typed_at))]
fn typed<'t, 'a>(end: u32, tokens: &'t [Token<'a>]) -> Result<&'t [Token<'a>], SourceFault>
    ensures value { GivesParsed (λ r. lexemes r.now) result (typed_at end (lexemes tokens.now)) }
    ensures shorter { IfOk result (λ r. length r.now ≤ length tokens.now) }
{
    if peek(tokens) == Head::Colon {
        let (_, rest) = real(end, behind(tokens))?;
        return Ok(rest);
    }
    Ok(tokens)
}

fn with_temp<'a>(body: Body<'a>, name: &'a str, operand: Operand) -> Result<Body<'a>, SourceFault>
    requires { name_place body.names name.now ≡ None }
    ensures value { GivesParsed body_value result
        (Ok (with_temp (body_value body.entry) name.now (operand_of operand))) }
    ensures room { IfOk result (λ b. (length b.names ≡ length body.entry.names + 1) ×
        (length b.temps.items ≡ length body.entry.temps.items + 1)) }
    ensures kept { IfOk result (λ b. (b.inputs ≡ body.entry.inputs) × (b.states ≡ body.entry.states)) }
{
    let Body {
        names,
        inputs,
        states,
        mut temps,
        nodes,
    } = body;
    let Operand {
        expr,
        nodes: more,
        ..
    } = operand;
    temps.push(Temp {
        name,
        expr: tree_or(expr),
    })?;
    let names = with_name(names, name)?;
    Ok(Body {
        names,
        inputs,
        states,
        temps,
        nodes: with_nodes(nodes, more),
    })
}

/// The name of one `val`, behind the word, and what stands behind its sign.
#[tactic(auto, unfolding(fx_grammar::specs::Bodies::val_at))]
fn val_name<'t, 'a>(end: u32, body: &Body<'_>, tokens: &'t [Token<'a>]) -> Parsed<'t, 'a, Token<'a>>
    requires { HasBodyRoom body.now }
    ensures value { GoesOn (λ x. val_behind end (body_value body.now) x.0.text.now (lexemes x.1.now)) result
        (val_at end (body_value body.now) (lexemes tokens.now)) }
    ensures shorter { IfOk result (λ x. length x.1.now < length tokens.now) }
    ensures few { IfOk result (λ x. length body.now.temps.items < 1000) }
    ensures new { IfOk result (λ x. name_place body.now.names x.0.text.now ≡ None) }
{
    let (token, rest) = want(end, Head::Name, tokens)?;
    free(TEMPS, body.temps.len(), &body.names, &token)?;
    let rest = typed(end, rest)?;
    let (_, rest) = want(end, Head::Equals, rest)?;
    Ok((token, rest))
}

/// One `val`, behind the word.
fn val<'t, 'a>(
    alloc: Global,
    end: u32,
    body: Body<'a>,
    tokens: &'t [Token<'a>],
) -> Parsed<'t, 'a, Body<'a>>
    requires room { HasBodyRoom body }
    ensures value { GivesParsed (λ x. (body_value x.0, lexemes x.1.now)) result
        (val_at end (body_value body.entry) (lexemes tokens.now)) }
    ensures shorter { IfOk result (λ x. length x.1.now < length tokens.now) }
    ensures room { IfOk result (λ x. HasBodyRoom x.0) }
    ensures kept { IfOk result (λ x. (x.0.inputs ≡ body.entry.inputs) × (x.0.states ≡ body.entry.states)) }
{
    let (token, rest) = val_name(end, &body, tokens)?;
    let (operand, rest) = whole(alloc, end, &body, rest)?;
    let body = with_temp(body, token.text, operand)?;
    Ok((body, past_semicolon(rest)))
}

/// The rule of one `val`, behind the word.
#[derive(Drop)]
struct ValRule {
    alloc: Global,
    end: u32,
    inputs: u32,
    states: u32,
}

impl<'a> Rule<'a> for ValRule {
    ghost use Rattle.std.specs.Prelude.{◌≡◌};
    ghost use Rattle.fx_grammar.specs.Bodies as bodies;
    ghost use Rattle.fx_grammar.specs.Bodies.{val_at};
    ghost use Rattle.fx_parser.specs.Views.{body_value, HasBodyRoom};

    type Kept = Body<'a>;

    ghost Value = { bodies.Body };

    ghost value_of = { λ body. body_value body };

    ghost can_go_on = { λ rule body. HasBodyRoom body × (body.inputs ≡ rule.inputs) × (body.states ≡ rule.states) };

    ghost item_at = { λ rule. val_at rule.end };

    fn item<'t>(&self, body: Body<'a>, tokens: &'t [Token<'a>]) -> Parsed<'t, 'a, Body<'a>> {
        val(self.alloc, self.end, body, tokens)
    }
}

/// All vals, behind the semicolon that may come before them.
#[tactic(auto, unfolding(fx_grammar::specs::Bodies::vals_at))]
pub fn vals<'t, 'a>(
    alloc: Global,
    end: u32,
    body: Body<'a>,
    tokens: &'t [Token<'a>],
) -> Parsed<'t, 'a, Body<'a>>
    requires { HasBodyRoom body }
    ensures value { GivesParsed (λ x. (body_value x.0, lexemes x.1.now)) result
        (vals_at end (body_value body.entry) (past_semicolon (lexemes tokens.now))) }
    ensures shorter { IfOk result (λ x. length x.1.now ≤ length tokens.now) }
    ensures room { IfOk result (λ x. HasBodyRoom x.0) }
    ensures kept { IfOk result (λ x. (x.0.inputs ≡ body.entry.inputs) × (x.0.states ≡ body.entry.states)) }
{
    let rule = ValRule {
        alloc,
        end,
        inputs: body.inputs,
        states: body.states,
    };
    repeated(&rule, Head::Val, body, past_semicolon(tokens))
}

/// The fault of one result that is too high: it loses to too many nodes, where the function ends
/// right behind it.
fn single_high(
    end: u32,
    word: u32,
    first: u32,
    body: &Body<'_>,
    nodes: u32,
    rest: &[Token<'_>],
) -> SourceFault
    requires inputs { body.now.inputs ≤ 64 }
    requires states { body.now.states ≤ 32 }
    ensures { result ≡ single_high end word first (body_value body.now) nodes (lexemes rest.now) }
{
    if peek(rest) == Head::CloseBrace
        && peek(behind(rest)) != Head::Ensuring
        && body.inputs + body.states + 1 + with_nodes(body.nodes, nodes) > NODE_LIMIT
    {
        return SourceFault::at(word, SourceKind::TooMany);
    }
    too_high(end, first, rest)
}

fn one_tree(alloc: Global, expr: Expr, nodes: u32) -> Result<Results, SourceFault>
    ensures { GivesParsed results_value result (Ok (record { trees = tree expr ∷ []; nodes = nodes })) }
{
    let mut trees = Vec::new(alloc);
    trees.push(expr)?;
    Ok(Results { trees, nodes })
}

/// The one result.
#[tactic(auto, unfolding(fx_grammar::specs::Bodies::single_at))]
fn single<'t, 'a>(
    alloc: Global,
    end: u32,
    word: u32,
    body: &Body<'_>,
    tokens: &'t [Token<'a>],
) -> Parsed<'t, 'a, Results>
    requires room { length body.now.names < 2 ^ 32 }
    requires inputs { body.now.inputs ≤ 64 }
    requires states { body.now.states ≤ 32 }
    ensures value { GivesParsed (λ x. (results_value x.0, lexemes x.1.now)) result
        (single_at end word (body_value body.now) (lexemes tokens.now)) }
    ensures shorter { IfOk result (λ x. length x.1.now < length tokens.now) }
{
    let (operand, rest) = read(alloc, end, true, body, tokens)?;
    if is_high(&operand) {
        let first = place_at(end, tokens);
        return Err(single_high(end, word, first, body, operand.nodes, rest));
    }
    let Operand { expr, nodes, .. } = operand;
    let results = one_tree(alloc, tree_or(expr), with_nodes(body.nodes, nodes))?;
    Ok((results, rest))
}

fn with_tree(results: Results, expr: Expr, nodes: u32) -> Result<Results, SourceFault>
    ensures { GivesParsed results_value result
        (Ok (record {
          trees = map tree results.trees.items ++ tree expr ∷ [];
          nodes = min 4001 (results.nodes + nodes);
        })) }
{
    let Results {
        mut trees,
        nodes: before,
    } = results;
    trees.push(expr)?;
    Ok(Results {
        trees,
        nodes: with_nodes(before, nodes),
    })
}

/// One more result of a tuple that began at `first`.
#[tactic(auto, unfolding(fx_grammar::specs::Bodies::element_at))]
fn element<'t, 'a>(
    alloc: Global,
    end: u32,
    first: u32,
    reals: usize,
    body: &Body<'_>,
    results: Results,
    tokens: &'t [Token<'a>],
) -> Parsed<'t, 'a, Results>
    requires { length body.now.names < 2 ^ 32 }
    ensures value { GivesParsed (λ x. (results_value x.0, lexemes x.1.now)) result
        (element_at end first reals (body_value body.now) (results_value results) (lexemes tokens.now)) }
    ensures shorter { IfOk result (λ x. length x.1.now < length tokens.now) }
{
    let (operand, rest) = read(alloc, end, false, body, tokens)?;
    if is_high(&operand) {
        if peek(rest) == Head::Close && results.trees.len() + 1 != reals {
            return Err(SourceFault::at(first, SourceKind::WrongArity));
        }
        return Err(too_high(end, place_at(end, tokens), rest));
    }
    let Operand { expr, nodes, .. } = operand;
    let results = with_tree(results, tree_or(expr), nodes)?;
    Ok((results, rest))
}

/// The rule of one result of a tuple that began at `first`.
#[derive(Drop)]
struct ElementRule<'b> {
    alloc: Global,
    end: u32,
    first: u32,
    reals: usize,
    body: &'b Body<'b>,
}

impl<'a, 'b> Rule<'a> for ElementRule<'b> {
    ghost use Rattle.std.specs.Prelude.{◌<◌, ◌^◌, length};
    ghost use Rattle.fx_grammar.specs.Bodies as bodies;
    ghost use Rattle.fx_grammar.specs.Bodies.{element_at};
    ghost use Rattle.fx_parser.specs.Views.{body_value, results_value};

    type Kept = Results;

    ghost Value = { bodies.Results };

    ghost value_of = { λ results. results_value results };

    ghost can_go_on = { λ rule results. length rule.body.now.names < 2 ^ 32 };

    ghost item_at = { λ rule. element_at rule.end rule.first rule.reals (body_value rule.body.now) };

    fn item<'t>(&self, results: Results, tokens: &'t [Token<'a>]) -> Parsed<'t, 'a, Results> {
        element(
            self.alloc, self.end, self.first, self.reals, self.body, results, tokens,
        )
    }
}

#[tactic(auto, unfolding(fx_grammar::specs::Bodies::tuple_at))]
fn tuple<'t, 'a>(
    alloc: Global,
    end: u32,
    reals: usize,
    body: &Body<'_>,
    tokens: &'t [Token<'a>],
) -> Parsed<'t, 'a, Results>
    requires { length body.now.names < 2 ^ 32 }
    ensures value { GivesParsed (λ x. (results_value x.0, lexemes x.1.now)) result
        (tuple_at end reals (body_value body.now) (lexemes tokens.now)) }
    ensures shorter { IfOk result (λ x. length x.1.now < length tokens.now) }
{
    let (open, rest) = want(end, Head::Open, tokens)?;
    let rule = ElementRule {
        alloc,
        end,
        first: open.at,
        reals,
        body,
    };
    let none = Results {
        trees: Vec::new(alloc),
        nodes: body.nodes,
    };
    let (results, rest) = listed(&rule, end, none, rest)?;
    if results.trees.len() != reals {
        return Err(SourceFault::at(open.at, SourceKind::WrongArity));
    }
    Ok((results, rest))
}

/// The result, one or a tuple.
#[tactic(auto, unfolding(fx_grammar::specs::Bodies::result_at))]
pub fn outcome<'t, 'a>(
    alloc: Global,
    end: u32,
    word: u32,
    reals: usize,
    body: &Body<'_>,
    tokens: &'t [Token<'a>],
) -> Parsed<'t, 'a, Results>
    requires room { length body.now.names < 2 ^ 32 }
    requires inputs { body.now.inputs ≤ 64 }
    requires states { body.now.states ≤ 32 }
    ensures value { GivesParsed (λ x. (results_value x.0, lexemes x.1.now)) result
        (result_at end word reals (body_value body.now) (lexemes tokens.now)) }
    ensures shorter { IfOk result (λ x. length x.1.now < length tokens.now) }
{
    if reals < 2 {
        single(alloc, end, word, body, tokens)
    } else {
        tuple(alloc, end, reals, body, tokens)
    }
}
