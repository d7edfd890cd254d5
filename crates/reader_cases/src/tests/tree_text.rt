//! A tree in a printed form, a line for each node, function, object literal and site by its number, and one for the script's own code.
//!
//! A node's line has its number, its place, its kind and the numbers of its parts, with `-` for one that is left out. A name is printed as `NAME@BINDING`, where
//! `top0` and `own0` are cells, with a `c` behind those of constants.

ghost use Rattle.std.specs.Prelude.{◌<◌, length};

use es_source::Place;
use es_tree::{
    Access, AssignOperator, Binding, Block, Body, Catch, Checked, Declared, FunctionFacts,
    FunctionNo, Items, Key, LiteralFacts, LiteralNo, Named, Node, NodeId, Operator, Primary,
    Property, SiteFacts, SiteId, Statement, Target,
};
use property_keys::Units;
use std::alloc::{AllocError, Global};

/// All of a tree.
pub fn tree_text(alloc: Global, tree: &Checked) -> Result<String, AllocError> {
    let mut out = String::new(alloc);
    push_nodes(&mut out, tree)?;
    push_functions(&mut out, tree)?;
    push_literals(&mut out, tree)?;
    push_sites(&mut out, tree)?;
    out.push_str("script")?;
    push_where(&mut out, tree.strict(), " strict")?;
    push_body(&mut out, tree.script())?;
    Ok(out)
}

// ---- a line each

fn push_nodes(out: &mut String, tree: &Checked) -> Result<(), AllocError> {
    for number in 0..tree.nodes() {
        push_node_line(out, tree, NodeId(number))?;
    }
    Ok(())
}

fn push_node_line(out: &mut String, tree: &Checked, n: NodeId) -> Result<(), AllocError>
    requires { n.0 < length tree.now.nodes }
{
    let Place { line, column } = tree.place(n);
    write!(out, "{} {line}:{column} ", n.0)?;
    push_node(out, tree.node(n))?;
    out.push('\n')
}

fn push_functions(out: &mut String, tree: &Checked) -> Result<(), AllocError> {
    for number in 0..tree.functions() {
        push_function_line(out, tree, FunctionNo(number))?;
    }
    Ok(())
}

fn push_function_line(out: &mut String, tree: &Checked, f: FunctionNo) -> Result<(), AllocError>
    requires { f.0 < length tree.now.functions }
{
    write!(out, "function {} ", f.0)?;
    push_function_facts(out, tree.function(f))?;
    push_body(out, tree.body(f))
}

fn push_function_facts(out: &mut String, facts: &FunctionFacts) -> Result<(), AllocError> {
    let FunctionFacts {
        place: Place { line, column },
        parameters,
        this_names,
        constructor,
        strict,
    } = *facts;
    write!(
        out,
        "{line}:{column} parameters {parameters} this {this_names}"
    )?;
    push_where(out, constructor, " constructor")?;
    push_where(out, strict, " strict")
}

fn push_literals(out: &mut String, tree: &Checked) -> Result<(), AllocError> {
    for number in 0..tree.literals() {
        let LiteralFacts {
            place: Place { line, column },
            definitions,
        } = *tree.literal(LiteralNo(number));
        write!(
            out,
            "literal {number} {line}:{column} definitions {definitions}\n"
        )?;
    }
    Ok(())
}

fn push_sites(out: &mut String, tree: &Checked) -> Result<(), AllocError> {
    for number in 0..tree.sites() {
        let SiteFacts {
            place: Place { line, column },
            write,
        } = *tree.site(SiteId(number));
        let access = if write { "write" } else { "read" };
        write!(out, "site {number} {line}:{column} {access}\n")?;
    }
    Ok(())
}

// The code of a function or of the script, to the end of its line.
fn push_body(out: &mut String, body: &Body) -> Result<(), AllocError> {
    push_where(out, body.arguments, " arguments")?;
    if let Some(name) = &body.name {
        out.push_str(" name ")?;
        push_units(out, name)?;
    }
    write!(out, " names {} items ", body.names)?;
    push_numbers(out, &body.items)?;
    for i in 0..body.declared.len() {
        let function = body.declared.at(i);
        out.push_str(" declares ")?;
        push_named(out, &function.named)?;
        write!(out, " {}", function.function.0)?;
        push_where(out, function.is_last, " last")?;
    }
    out.push('\n')
}

// ---- nodes

fn push_node(out: &mut String, node: &Node) -> Result<(), AllocError> {
    match node {
        Node::Statement(statement) => push_statement(out, statement),
        Node::Operator(operator) => push_operator(out, operator),
        Node::Access(access) => push_access(out, access),
        Node::Primary(primary) => push_primary(out, primary),
    }
}

fn push_statement(out: &mut String, statement: &Statement) -> Result<(), AllocError> {
    match statement {
        Statement::Block(block) => push_block(out, "block", block),
        Statement::Lexical { constant, names } => push_lexical(out, *constant, names),
        Statement::Empty => out.push_str("empty"),
        Statement::Expression(n) => write!(out, "expression {}", n.0),
        Statement::If {
            test,
            then,
            otherwise,
        } => push_if(out, *test, *then, *otherwise),
        Statement::While { test, body } => write!(out, "while {} {}", test.0, body.0),
        Statement::For {
            names,
            first,
            test,
            step,
            body,
        } => push_for(out, *names, (*first, *test, *step), *body),
        Statement::Break => out.push_str("break"),
        Statement::Continue => out.push_str("continue"),
        Statement::Return(value) => push_return(out, *value),
        Statement::Throw(n) => write!(out, "throw {}", n.0),
        Statement::Try {
            block,
            catch,
            finally,
        } => push_try(out, block, catch, finally),
    }
}

fn push_lexical(
    out: &mut String,
    constant: bool,
    names: &Items<Declared>,
) -> Result<(), AllocError> {
    out.push_str(if constant { "const" } else { "let" })?;
    for i in 0..names.len() {
        let declared = names.at(i);
        out.push_str(if i == 0 { " " } else { ", " })?;
        push_named(out, &declared.named)?;
        push_optional(out, declared.value)?;
    }
    Ok(())
}

fn push_if(
    out: &mut String,
    test: NodeId,
    then: NodeId,
    otherwise: Option<NodeId>,
) -> Result<(), AllocError> {
    write!(out, "if {} {}", test.0, then.0)?;
    push_optional(out, otherwise)
}

// The three parts of the head of a `for`.
type Head = (Option<NodeId>, Option<NodeId>, Option<NodeId>);

fn push_for(out: &mut String, names: u32, head: Head, body: NodeId) -> Result<(), AllocError> {
    write!(out, "for {names}")?;
    push_optional(out, head.0)?;
    push_optional(out, head.1)?;
    push_optional(out, head.2)?;
    write!(out, " {}", body.0)
}

fn push_return(out: &mut String, value: Option<NodeId>) -> Result<(), AllocError> {
    out.push_str("return")?;
    push_optional(out, value)
}

fn push_try(
    out: &mut String,
    block: &Block,
    catch: &Option<Catch>,
    finally: &Option<Block>,
) -> Result<(), AllocError> {
    push_block(out, "try", block)?;
    if let Some(catch) = catch {
        push_catch(out, catch)?;
    }
    match finally {
        Some(block) => push_block(out, " finally", block),
        None => Ok(()),
    }
}

fn push_catch(out: &mut String, catch: &Catch) -> Result<(), AllocError> {
    out.push_str(" catch")?;
    if let Some(parameter) = &catch.parameter {
        out.push(' ')?;
        push_named(out, parameter)?;
    }
    push_block(out, "", &catch.block)
}

// The number of names of a block, and its items.
fn push_block(out: &mut String, word: &str, block: &Block) -> Result<(), AllocError> {
    write!(out, "{word} {} ", block.names)?;
    push_numbers(out, &block.items)
}

fn push_operator(out: &mut String, operator: &Operator) -> Result<(), AllocError> {
    match operator {
        Operator::Comma(items) => push_comma(out, items),
        Operator::Assign {
            operator,
            target,
            value,
        } => push_assign(out, *operator, target, *value),
        Operator::Update {
            increment,
            prefix,
            target,
        } => push_update(out, *increment, *prefix, target),
        Operator::Conditional {
            test,
            then,
            otherwise,
        } => write!(out, "conditional {} {} {}", test.0, then.0, otherwise.0),
        Operator::Short {
            operator,
            left,
            right,
        } => write!(out, "short {operator:?} {} {}", left.0, right.0),
        Operator::Binary {
            operator,
            left,
            right,
        } => write!(out, "binary {operator:?} {} {}", left.0, right.0),
        Operator::Unary { operator, operand } => write!(out, "unary {operator:?} {}", operand.0),
    }
}

fn push_comma(out: &mut String, items: &Items<NodeId>) -> Result<(), AllocError> {
    out.push_str("comma ")?;
    push_numbers(out, items)
}

fn push_assign(
    out: &mut String,
    operator: AssignOperator,
    target: &Target,
    value: NodeId,
) -> Result<(), AllocError> {
    write!(out, "assign {operator:?} ")?;
    push_target(out, target)?;
    write!(out, " {}", value.0)
}

fn push_update(
    out: &mut String,
    increment: bool,
    prefix: bool,
    target: &Target,
) -> Result<(), AllocError> {
    out.push_str(if increment { "increment" } else { "decrement" })?;
    out.push_str(if prefix { " prefix " } else { " postfix " })?;
    push_target(out, target)
}

fn push_access(out: &mut String, access: &Access) -> Result<(), AllocError> {
    match access {
        Access::Member {
            base,
            name,
            read,
            write,
        } => {
            write!(out, "member {} .", base.0)?;
            push_units(out, name)?;
            push_directions(out, *read, *write)
        }
        Access::Index {
            base,
            key,
            read,
            write,
        } => {
            write!(out, "index {} {}", base.0, key.0)?;
            push_directions(out, *read, *write)
        }
        Access::Call { callee, arguments } => push_call(out, "call", *callee, arguments),
        Access::New { callee, arguments } => push_call(out, "new", *callee, arguments),
    }
}

fn push_call(
    out: &mut String,
    word: &str,
    callee: NodeId,
    arguments: &Items<NodeId>,
) -> Result<(), AllocError> {
    write!(out, "{word} {} ", callee.0)?;
    push_numbers(out, arguments)
}

// The sites of an access.
fn push_directions(
    out: &mut String,
    read: Option<SiteId>,
    written: Option<SiteId>,
) -> Result<(), AllocError> {
    if let Some(site) = read {
        write!(out, " read {}", site.0)?;
    }
    match written {
        Some(site) => write!(out, " write {}", site.0),
        None => Ok(()),
    }
}

fn push_primary(out: &mut String, primary: &Primary) -> Result<(), AllocError> {
    match primary {
        Primary::This => out.push_str("this"),
        Primary::Name(named) => {
            out.push_str("name ")?;
            push_named(out, named)
        }
        Primary::Number(n) => write!(out, "number {n}"),
        Primary::Text(units) => {
            out.push_str("text \"")?;
            push_units(out, units)?;
            out.push('"')
        }
        Primary::Null => out.push_str("null"),
        Primary::Bool(value) => write!(out, "{value}"),
        Primary::Array(elements) => push_elements(out, elements),
        Primary::Object {
            literal,
            properties,
        } => {
            write!(out, "object {}", literal.0)?;
            push_properties(out, properties)
        }
        Primary::Function(f) => write!(out, "function {}", f.0),
        Primary::Method(f) => write!(out, "method {}", f.0),
    }
}

fn push_elements(out: &mut String, elements: &Items<Option<NodeId>>) -> Result<(), AllocError> {
    out.push_str("array")?;
    for i in 0..elements.len() {
        push_optional(out, *elements.at(i))?;
    }
    Ok(())
}

fn push_properties(out: &mut String, properties: &Items<Property>) -> Result<(), AllocError> {
    for i in 0..properties.len() {
        out.push_str(", ")?;
        push_property(out, properties.at(i))?;
    }
    Ok(())
}

fn push_property(out: &mut String, property: &Property) -> Result<(), AllocError> {
    match property {
        Property::Value { key, value } => push_definition(out, "value", key, *value),
        Property::Shorthand(named) => {
            out.push_str("shorthand ")?;
            push_named(out, named)
        }
        Property::Prototype(n) => write!(out, "prototype {}", n.0),
        Property::Method { key, method } => push_definition(out, "method", key, *method),
        Property::Getter { key, method } => push_definition(out, "get", key, *method),
        Property::Setter { key, method } => push_definition(out, "set", key, *method),
    }
}

fn push_definition(out: &mut String, word: &str, key: &Key, n: NodeId) -> Result<(), AllocError> {
    write!(out, "{word} ")?;
    match key {
        Key::Fixed(units) => push_units(out, units)?,
        Key::Computed(key) => write!(out, "[{}]", key.0)?,
    }
    write!(out, " {}", n.0)
}

// ---- names, numbers and texts

fn push_target(out: &mut String, target: &Target) -> Result<(), AllocError> {
    match target {
        Target::Name(named) => push_named(out, named),
        Target::Access(n) => write!(out, "{}", n.0),
    }
}

fn push_named(out: &mut String, named: &Named) -> Result<(), AllocError> {
    push_units(out, &named.name)?;
    out.push('@')?;
    push_binding(out, named.binding)
}

fn push_binding(out: &mut String, binding: Binding) -> Result<(), AllocError> {
    match binding {
        Binding::Global => out.push_str("global"),
        Binding::Top { cell, constant } => {
            write!(out, "top{cell}")?;
            push_where(out, constant, "c")
        }
        Binding::Own { place, constant } => {
            write!(out, "own{place}")?;
            push_where(out, constant, "c")
        }
        Binding::Arguments => out.push_str("arguments"),
        Binding::Callee => out.push_str("callee"),
    }
}

fn push_optional(out: &mut String, node: Option<NodeId>) -> Result<(), AllocError> {
    match node {
        Some(n) => write!(out, " {}", n.0),
        None => out.push_str(" -"),
    }
}

fn push_numbers(out: &mut String, items: &Items<NodeId>) -> Result<(), AllocError> {
    out.push('[')?;
    for i in 0..items.len() {
        out.push_str(if i == 0 { "" } else { " " })?;
        write!(out, "{}", items.at(i).0)?;
    }
    out.push(']')
}

fn push_where(out: &mut String, holds: bool, text: &str) -> Result<(), AllocError> {
    if holds {
        out.push_str(text)?;
    }
    Ok(())
}

fn push_units(out: &mut String, units: &Units) -> Result<(), AllocError> {
    for i in 0..units.len() {
        let character = char::from_u32(u32::from(units.unit(i)));
        out.push(character.unwrap_or('?'))?;
    }
    Ok(())
}
