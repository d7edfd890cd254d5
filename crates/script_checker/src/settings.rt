//! What stands around the parts of a part.

ghost use Rattle.std.specs.Prelude.{◌≡◌, ◌∷◌, List};
ghost use Rattle.script_rules.specs.declared.scope.Scope.{Scope};
ghost use Rattle.script_rules.specs.Arena.{IsPart, tree_at};
ghost use Rattle.script_rules.specs.Chains.{chain_at};
ghost use Rattle.script_rules.specs.Names.{declared_in, parameters_in};
ghost use Rattle.script_rules.specs.Scopes.{part_scope};
ghost use Rattle.script_checker.specs.Made.{after_triple, around, as_role, before_pair, before_triple, catch_scope, in_for, in_function, in_pair, in_triple, in_wrap, inner_role, operand_role, target_role, within};
ghost use Rattle.script_checker.specs.Machine.{around_of};
ghost use Rattle.script_checker.specs.Settings.{Opens};
ghost use Rattle.script_checker.specs.Spots.{IsKnown};

use crate::Setting;
use crate::own::is_strict;
use es_tree::{AssignOperator, UnaryOperator};
use property_keys::NoMemory;
use script_grammar::{Pair, Script, Triple, Wrap};
use script_rules::{
    Declared, Manner, Role, Scope, Scopes, declared_by, declared_in, function_scope, parameters_in,
    part_scope,
};
use std::alloc::Global;

/// The role of an operand.
fn operand_role(operator: UnaryOperator) -> Role
    ensures { result ≡ operand_role operator }
{
    match operator {
        UnaryOperator::Delete => Role::Deleted,
        _ => Role::Plain,
    }
}

/// The role of what stands in parentheses.
fn inner_role(role: Role) -> Role
    ensures { result ≡ inner_role role }
{
    match role {
        Role::Deleted => Role::Deleted,
        _ => Role::Plain,
    }
}

/// The role of the target of an assignment.
fn target_role(operator: AssignOperator) -> Role
    ensures { result ≡ target_role operator }
{
    match operator {
        AssignOperator::Plain => Role::Written,
        _ => Role::Updated,
    }
}

/// The same scope for a part in another role.
fn with_role(setting: Setting, role: Role) -> Setting
    ensures { result ≡ record setting { role = role } }
{
    Setting {
        scope: setting.scope,
        strict: setting.strict,
        role,
    }
}

/// Within a new scope.
fn enter(
    scopes: &mut Scopes,
    setting: Setting,
    scope: Scope,
    strict: bool,
    role: Role,
) -> Result<Setting, NoMemory>
    requires { IsKnown scopes.old setting }
    ensures { Opens scopes.old scopes.new (around (scope ∷ chain_at scopes.old setting.scope.0) strict role) result }
{
    let scope = scopes.enter(Some(setting.scope), scope)?;
    Ok(Setting {
        scope,
        strict,
        role,
    })
}

/// Within a block with these items.
fn in_block(
    alloc: Global,
    script: &Script,
    scopes: &mut Scopes,
    setting: Setting,
    items: u32,
) -> Result<Setting, NoMemory>
    requires known { IsKnown scopes.old setting }
    requires items { IsPart script.now.nodes items }
    ensures { Opens scopes.old scopes.new (within (part_scope script.now.leaves (declared_in (tree_at script.now.nodes items))) (around_of scopes.old setting)) result }
{
    let declared = declared_in(alloc, script, items)?;
    let scope = part_scope(alloc, script, &declared)?;
    enter(scopes, setting, scope, setting.strict, Role::Plain)
}

/// Within a catch with this parameter.
fn in_catch(
    alloc: Global,
    script: &Script,
    scopes: &mut Scopes,
    setting: Setting,
    parameter: u32,
) -> Result<Setting, NoMemory>
    requires { IsKnown scopes.old setting }
    ensures { Opens scopes.old scopes.new (as_role Role.Block (within (catch_scope script.now.leaves parameter) (around_of scopes.old setting))) result }
{
    let declared = [Declared {
        name: parameter,
        manner: Manner::Catch,
    }];
    let scope = part_scope(alloc, script, &declared)?;
    enter(scopes, setting, scope, setting.strict, Role::Block)
}

/// Around the part of a label with one part.
pub fn in_wrap(
    alloc: Global,
    script: &Script,
    scopes: &mut Scopes,
    setting: Setting,
    label: Wrap,
    part: u32,
) -> Result<Setting, NoMemory>
    requires known { IsKnown scopes.old setting }
    requires part { IsPart script.now.nodes part }
    ensures { Opens scopes.old scopes.new (in_wrap script.now.leaves (around_of scopes.old setting) label (tree_at script.now.nodes part)) result }
{
    match label {
        Wrap::Parenthesis(_) => Ok(with_role(setting, inner_role(setting.role))),
        Wrap::Unary(operator, _) => Ok(with_role(setting, operand_role(operator))),
        Wrap::Update { .. } => Ok(with_role(setting, Role::Updated)),
        Wrap::Block(_) => in_block(alloc, script, scopes, setting, part),
        Wrap::Catch => Ok(with_role(setting, Role::Block)),
        Wrap::CatchName(parameter) => in_catch(alloc, script, scopes, setting, parameter),
        _ => Ok(with_role(setting, Role::Plain)),
    }
}

/// Within a function with these parameters and this body.
fn in_function(
    alloc: Global,
    script: &Script,
    scopes: &mut Scopes,
    setting: Setting,
    callee: Option<u32>,
    parameters: &[Declared],
    code: u32,
) -> Result<Setting, NoMemory>
    requires known { IsKnown scopes.old setting }
    requires code { IsPart script.now.nodes code }
    ensures { Opens scopes.old scopes.new (in_function script.now.leaves (around_of scopes.old setting) callee parameters.now (tree_at script.now.nodes code)) result }
{
    let declared = declared_in(alloc, script, code)?;
    let scope = function_scope(alloc, script, callee, parameters, &declared)?;
    let begins_strict = is_strict(alloc, script, code)?;
    let strict = setting.strict || begins_strict;
    enter(scopes, setting, scope, strict, Role::Plain)
}

/// Within a function with a list of parameters.
fn in_parameters(
    alloc: Global,
    script: &Script,
    scopes: &mut Scopes,
    setting: Setting,
    callee: Option<u32>,
    parameters: u32,
    code: u32,
) -> Result<Setting, NoMemory>
    requires known { IsKnown scopes.old setting }
    requires parameters { IsPart script.now.nodes parameters }
    requires code { IsPart script.now.nodes code }
    ensures { Opens scopes.old scopes.new (in_function script.now.leaves (around_of scopes.old setting) callee (parameters_in (tree_at script.now.nodes parameters)) (tree_at script.now.nodes code)) result }
{
    let declared = parameters_in(alloc, script, parameters)?;
    in_function(alloc, script, scopes, setting, callee, &declared, code)
}

/// Around the second part of a label with two parts.
pub fn in_pair(
    alloc: Global,
    script: &Script,
    scopes: &mut Scopes,
    setting: Setting,
    label: Pair,
    first: u32,
    second: u32,
) -> Result<Setting, NoMemory>
    requires known { IsKnown scopes.old setting }
    requires first { IsPart script.now.nodes first }
    requires second { IsPart script.now.nodes second }
    ensures { Opens scopes.old scopes.new (in_pair script.now.leaves (around_of scopes.old setting) label (tree_at script.now.nodes first) (tree_at script.now.nodes second)) result }
{
    match label {
        Pair::Function(_) => in_parameters(alloc, script, scopes, setting, None, first, second),
        Pair::NamedFunction { name, .. } => {
            in_parameters(alloc, script, scopes, setting, Some(name), first, second)
        }
        Pair::DeclaredFunction { .. } => {
            in_parameters(alloc, script, scopes, setting, None, first, second)
        }
        Pair::Getter(_) => in_function(alloc, script, scopes, setting, None, &[], second),
        Pair::Setter { parameter, .. } => {
            let parameters = [Declared {
                name: parameter,
                manner: Manner::Parameter,
            }];
            in_function(alloc, script, scopes, setting, None, &parameters, second)
        }
        _ => Ok(with_role(setting, Role::Plain)),
    }
}

/// Around the first part of a label with two parts, of which the second is within the last setting.
pub fn before_pair(setting: Setting, inner: Setting, label: Pair) -> Setting
    ensures around { (chains : List (List Scope)) → around_of chains result ≡ before_pair (around_of chains setting) (around_of chains inner) label }
    ensures known { (chains : List (List Scope)) → IsKnown chains setting → IsKnown chains inner → IsKnown chains result }
{
    match label {
        Pair::Comma => with_role(setting, Role::Listed),
        Pair::Assign(operator) => with_role(setting, target_role(operator)),
        Pair::Function(_) => inner,
        Pair::NamedFunction { .. } => inner,
        Pair::DeclaredFunction { .. } => inner,
        _ => with_role(setting, Role::Plain),
    }
}

/// Around the second part of a label with three parts.
pub fn in_triple(
    alloc: Global,
    script: &Script,
    scopes: &mut Scopes,
    setting: Setting,
    label: Triple,
    second: u32,
    third: u32,
) -> Result<Setting, NoMemory>
    requires known { IsKnown scopes.old setting }
    requires second { IsPart script.now.nodes second }
    requires third { IsPart script.now.nodes third }
    ensures { Opens scopes.old scopes.new (in_triple script.now.leaves (around_of scopes.old setting) label (tree_at script.now.nodes second) (tree_at script.now.nodes third)) result }
{
    match label {
        Triple::Method => in_parameters(alloc, script, scopes, setting, None, second, third),
        _ => Ok(with_role(setting, Role::Plain)),
    }
}

/// Around the first part of a label with three parts.
pub fn before_triple(setting: Setting, label: Triple) -> Setting
    ensures around { (chains : List (List Scope)) → around_of chains result ≡ before_triple (around_of chains setting) label }
    ensures known { (chains : List (List Scope)) → IsKnown chains setting → IsKnown chains result }
{
    match label {
        Triple::Try(_) => with_role(setting, Role::Block),
        _ => with_role(setting, Role::Plain),
    }
}

/// Around the last part of a label with three parts, of which the second is within this setting.
pub fn after_triple(inner: Setting, label: Triple) -> Setting
    ensures around { (chains : List (List Scope)) → around_of chains result ≡ after_triple (around_of chains inner) label }
    ensures known { (chains : List (List Scope)) → IsKnown chains inner → IsKnown chains result }
{
    match label {
        Triple::Try(_) => with_role(inner, Role::Block),
        _ => inner,
    }
}

/// Around the parts of a `for` with this first part.
pub fn in_for(
    alloc: Global,
    script: &Script,
    scopes: &mut Scopes,
    setting: Setting,
    first: u32,
) -> Result<Setting, NoMemory>
    requires known { IsKnown scopes.old setting }
    requires first { IsPart script.now.nodes first }
    ensures { Opens scopes.old scopes.new (in_for script.now.leaves (around_of scopes.old setting) (tree_at script.now.nodes first)) result }
{
    let declared = declared_by(alloc, script, first)?;
    let scope = part_scope(alloc, script, &declared)?;
    enter(scopes, setting, scope, setting.strict, Role::Plain)
}
