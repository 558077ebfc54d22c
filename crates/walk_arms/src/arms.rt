// The arms of `substitute_single_use_symbol_in_expression` (src/peephole/minimize_statements.rs 1272-1876): what a node is to
// the search, which of its children are searched, and whether the search goes on behind the node where these are passed.
// AssignmentExpression (1401-1470) has its tests of the target (`stops_at_target`) before its value is searched
// (`begin_assignment`).
ghost use Rattle.std.specs.Prelude.{◌≡◌, true, cond, ◌≤◌, eqb};
ghost use Rattle.records.specs.File.{read};
ghost use Rattle.records.specs.Flags.{optional as isOptional, compound as isCompoundFlag};
ghost use Rattle.records.specs.Node.{two_children};
ghost use Rattle.records.specs.Tree.{node_of};
ghost use Rattle.records_table.specs.Laid.{Stands, ForestStands};
ghost use Rattle.walk_rules.specs.Context.{context_of};
ghost use Rattle.walk_rules.specs.Shape.{never, cuts, is_member_expression, shape as shape_of};
ghost use Rattle.walk_rules.specs.Shape.{delete, property, stopping, assignment, steps};
ghost use Rattle.walk_rules.specs.Looks.{own_looks};
ghost use Rattle.walk_rules.specs.Substitute.{first as firstAlone, nothing as nothingAtAll, next as nextPlan, is_specific_id};
ghost use Rattle.walk_arms.specs.Arms.{shaped, planned, is_assignment, is_compound_assignment, is_nothing, is_branches, is_all};
ghost use Rattle.walk_arms.specs.Arms.{KeepsCallee, KeepsIndirect, PlansFor, Reorders, MayPass};
ghost use Rattle.walk_arms.specs.Target.{DependsOnSideEffect};
ghost use Rattle.walk_arms.specs.Begins.{BeginsAt, StopsAt, plan_of_value};

use crate::node::WorkNode;
use crate::replacement::Replacement;
use records::kinds::{
    ASSIGNMENT, CALL, CHAIN, CLASS, COMPUTED_MEMBER, CONDITIONAL, DELETE, ELISION, FUNCTION,
    IMPORT, LITERAL, LOGICAL, NAME, NEW, OPAQUE_TARGET, OTHER, PRIVATE_MEMBER, PROPERTY, SEQUENCE,
    SPREAD, STATIC_MEMBER, TAGGED_TEMPLATE, TARGET_NAME, THIS, UNARY, is_expression,
};
use records::layout::{NameId, NodeId, NodeRecord};
use records::record_file::RecordFile;
use records_table::work_node;
use walk_reorder::effect::pass_forest;
use walk_reorder::member_part::{computed_key_blocks_reorder, member_part_blocks_reorder};
use walk_reorder::unsettled::identifier_read_blocks_reorder;

// The kinds of nodes by what the search does at them, each with the arms of the Rust's `match`.
#[derive(Clone, Copy)]
pub enum Shape {
    Constant, // a literal, FunctionExpression, Elision
    Identifier, // Identifier
    TargetName, // a name as a target
    Leaf, // ClassExpression, ThisExpression, others, an opaque target
    Chain, // ChainExpression
    Import, // ImportExpression
    Delete, // UnaryExpression, `is_delete`
    Sequence, // SequenceExpression
    Property, // ObjectProperty, its key not computed, or the computed key `__proto__`, which has no node
    Stopping, // ObjectProperty, any other computed key; SpreadElement, SpreadProperty
    Assignment, // AssignmentExpression, `AssignmentOperator::Assign`
    CompoundAssignment, // AssignmentExpression, any other operator
    Logical, // LogicalExpression
    Conditional, // ConditionalExpression
    Optional, // the members and CallExpression, `optional`
    // AwaitExpression, YieldExpression, UnaryExpression, StaticMemberExpression, PrivateFieldExpression,
    // ComputedMemberExpression, CallExpression, NewExpression, BinaryExpression, PrivateInExpression, ArrayExpression,
    // ObjectExpression, TemplateLiteral, TaggedTemplateExpression
    Steps,
}

// `is_specific_id`: the name that is searched for.
#[tactic(auto, unfolding(walk_rules::specs::Substitute::is_specific_id, records::specs::Tree::node_of))]
pub fn is_specific_id(n: NodeRecord, replacement: Replacement) -> bool
    ensures result { result ≡ is_specific_id replacement.name.0 (node_of n) }
{
    (n.kind == NAME) & (n.label == replacement.name.0)
}

// The looks at a node itself: 1 for an expression; at a property 1 for the string key of a computed `__proto__`, which has no node.
#[tactic(auto, unfolding(walk_rules::specs::Looks::own_looks, records::specs::Place::is_expression, records::specs::Tree::node_of))]
pub fn own_looks(n: NodeRecord) -> usize
    ensures result { (result ≡ own_looks (node_of n)) × (result ≤ 1) }
{
    if n.kind == PROPERTY {
        return usize::from(n.is_computed() & n.is_proto());
    }
    usize::from(is_expression(u16::from(n.kind)))
}

#[tactic(auto, unfolding(records::specs::Tree::node_of))]
pub fn is_member_expression(n: NodeRecord) -> bool
    ensures result { result ≡ is_member_expression (node_of n) }
{
    matches!(n.kind, STATIC_MEMBER | PRIVATE_MEMBER | COMPUTED_MEMBER)
}

// UnaryExpression, by `is_delete`.
fn unary_shape(n: NodeRecord) -> Shape
    ensures result { shaped result ≡ cond (eqb n.label 1) delete (steps never) }
{
    if n.label == DELETE {
        Shape::Delete
    } else {
        Shape::Steps
    }
}

// A member or a call, by `optional`.
fn optional_shape(n: NodeRecord) -> Shape
    ensures result { shaped result ≡ cond (isOptional n.flags) (steps cuts) (steps never) }
{
    if n.is_optional() {
        Shape::Optional
    } else {
        Shape::Steps
    }
}

// AssignmentExpression, by its operator.
fn assignment_shape(n: NodeRecord) -> Shape
    ensures result { shaped result ≡ assignment (isCompoundFlag n.flags) }
{
    if n.is_compound() {
        Shape::CompoundAssignment
    } else {
        Shape::Assignment
    }
}

// ObjectProperty, by its key: one that is computed and has a node stops the search.
fn property_shape(n: NodeRecord) -> Shape
    ensures result { shaped result ≡ cond (two_children n.flags) stopping property }
{
    if n.is_computed() & !n.is_proto() {
        Shape::Stopping
    } else {
        Shape::Property
    }
}

#[tactic(auto, unfolding(walk_rules::specs::Shape::shape, records::specs::Tree::node_of))]
pub fn shape_of(n: NodeRecord) -> Shape
    ensures result { shaped result ≡ shape_of (node_of n) }
{
    match n.kind {
        LITERAL | FUNCTION | ELISION => Shape::Constant,
        NAME => Shape::Identifier,
        TARGET_NAME => Shape::TargetName,
        CLASS | THIS | OTHER | OPAQUE_TARGET => Shape::Leaf,
        CHAIN => Shape::Chain,
        IMPORT => Shape::Import,
        UNARY => unary_shape(n),
        SEQUENCE => Shape::Sequence,
        PROPERTY => property_shape(n),
        SPREAD => Shape::Stopping,
        ASSIGNMENT => assignment_shape(n),
        LOGICAL => Shape::Logical,
        CONDITIONAL => Shape::Conditional,
        STATIC_MEMBER | PRIVATE_MEMBER | COMPUTED_MEMBER | CALL => optional_shape(n),
        // AWAIT, YIELD, NEW, BINARY, PRIVATE_IN, ARRAY, OBJECT, TEMPLATE, TAGGED_TEMPLATE
        _ => Shape::Steps,
    }
}

// Each is one `matches!`, as those of `Plan` are.
impl Shape {
    pub fn is_assignment(self) -> bool
        ensures result { result ≡ is_assignment self }
    {
        matches!(self, Shape::Assignment | Shape::CompoundAssignment)
    }

    fn is_compound_assignment(self) -> bool
        ensures result { result ≡ is_compound_assignment self }
    {
        matches!(self, Shape::CompoundAssignment)
    }
}

// Which children of a node are searched, each with the shapes that have it.
#[derive(Clone, Copy)]
pub enum Plan {
    All, // each, until one gives an answer: Steps, Chain, Import, Sequence, Property; Logical and Optional; behind a target
    First, // the first alone: Stopping; Logical, Conditional and Optional, if the replacement has an effect
    Nothing, // none: Constant, Identifier, TargetName, Leaf, Delete; a callee that is kept, a target that ends the search
    Test, // the test, then the branches: Conditional
    Branches, // the branches: what is left of Test
}

// CallExpression and NewExpression of a plain name, and a member or a chain to place: "Don't substitute something into a call
// target that could change "this"".
#[tactic(auto, unfolding(walk_rules::specs::Substitute::keeps_callee, records::specs::Tree::node_of))]
fn keeps_callee(n: NodeRecord, first: NodeRecord, replacement: Replacement) -> bool
    ensures result { KeepsCallee n first replacement result }
{
    ((n.kind == CALL) | (n.kind == NEW)) & replacement.member_or_chain & (first.kind == NAME)
}

// `keep_indirect`: a tag that is the name searched for, and a member to place.
#[tactic(auto, unfolding(walk_rules::specs::Substitute::keeps_indirect, records::specs::Tree::node_of))]
pub fn keeps_indirect(n: NodeRecord, first: NodeRecord, replacement: Replacement) -> bool
    ensures result { KeepsIndirect n first replacement result }
{
    (n.kind == TAGGED_TEMPLATE) & is_specific_id(first, replacement) & replacement.member_tag
}

// Nothing, or the first child alone, or as it is otherwise.
fn plan_of_steps(nothing: bool, first: bool, otherwise: Plan) -> Plan
    ensures result { planned result ≡ cond nothing nothingAtAll (cond first firstAlone (planned otherwise)) }
{
    if nothing {
        Plan::Nothing
    } else if first {
        Plan::First
    } else {
        otherwise
    }
}

// The plan of a node that is no assignment and keeps no tag indirect; `first` is the root of its first child. "Do not
// substitute our unconditionally-executed value into a branch unless the value itself has no side effects".
#[tactic(auto, unfolding(walk_rules::specs::Substitute::plan, walk_rules::specs::Substitute::plan_for, records::specs::Tree::node_of))]
pub fn plan_of(shape: Shape, n: NodeRecord, first: NodeRecord, replacement: Replacement) -> Plan
    ensures result { PlansFor shape n first replacement result }
{
    let kept = keeps_callee(n, first, replacement); // false of all but a call and a `new`
    let string_key = n.is_computed(); // the computed key `__proto__`, which has no node
    match shape {
        Shape::Constant | Shape::Identifier | Shape::TargetName | Shape::Leaf | Shape::Delete =>
            Plan::Nothing,
        Shape::Chain | Shape::Import | Shape::Sequence => Plan::All,
        Shape::Property => plan_of_steps(string_key, false, Plan::All),
        Shape::Stopping => Plan::First,
        // their plan is that of `begin_assignment`
        Shape::Assignment | Shape::CompoundAssignment => Plan::Nothing,
        Shape::Logical | Shape::Optional => plan_of_steps(kept, replacement.effect, Plan::All),
        Shape::Conditional => plan_of_steps(kept, replacement.effect, Plan::Test),
        Shape::Steps => plan_of_steps(kept, false, Plan::All),
    }
}

// The plan for the children behind the first.
#[tactic(auto, unfolding(walk_rules::specs::Substitute::next))]
pub fn next_plan(p: Plan) -> Plan
    ensures result { planned result ≡ nextPlan (planned p) }
{
    match p {
        Plan::All | Plan::Branches => Plan::All,
        Plan::First | Plan::Nothing => Plan::Nothing,
        Plan::Test => Plan::Branches,
    }
}

// Each is one `matches!`, a method since a definition of specs/Arms.antt has its name.
impl Plan {
    pub fn is_all(self) -> bool
        ensures result { result ≡ is_all self }
    {
        matches!(self, Plan::All)
    }

    pub fn is_nothing(self) -> bool
        ensures result { result ≡ is_nothing self }
    {
        matches!(self, Plan::Nothing)
    }

    pub fn is_branches(self) -> bool
        ensures result { result ≡ is_branches self }
    {
        matches!(self, Plan::Branches)
    }
}

// `may_depend_on_side_effect`: whether a target depends on what the value does: an unsettled name or `this` in it, or anything
// but a name, a literal key or `this`.
pub fn may_depend_on_side_effect(file: &RecordFile<'_>, target: &WorkNode<'_>) -> bool
    requires target { Stands target.now.nodes.now target.now.at.0 }
    ensures result { DependsOnSideEffect (context_of (read file.now.bytes.now)) target.now.nodes.now target.now.at.0 result }
{
    match target.root.kind {
        TARGET_NAME => false,
        COMPUTED_MEMBER => {
            member_part_blocks_reorder(file, target.first_child())
                || computed_key_blocks_reorder(file, target.second_child())
        },
        PRIVATE_MEMBER | STATIC_MEMBER => member_part_blocks_reorder(file, target.first_child()),
        _ => true,
    }
}

// Where the search of a node's children begins.
#[derive(Clone, Copy)]
pub struct Begun {
    pub shape: Shape,
    pub next: NodeId, // the first child that isn't passed before the search
    pub trees: usize, // how many children there are from it on
    pub plan: Plan, // and the plan for them
    pub effect: bool, // a child that is passed before has an effect
    pub stops: bool, // an assignment's target ends the search
    pub indirect: bool, // the first child is a tag that is the name, and must stay indirect
}

// The three tests of an assignment's target; `many` is 1, or 0 if there is no target.
#[tactic(auto, unfolding(walk_rules::specs::Substitute::stops_at_target))]
fn stops_at_target(
    file: &RecordFile<'_>,
    nodes: &[u8],
    at: NodeId,
    many: usize,
    replacement: Replacement,
    compound: bool,
    effect: bool,
) -> bool
    requires target { ForestStands nodes.now at.0 many }
    ensures result { StopsAt (context_of (read file.now.bytes.now)) nodes.now at.0 many
        replacement compound effect result }
{
    if effect {
        return true;
    }
    if !replacement.effect {
        return false;
    }
    if compound {
        return true;
    }
    if many == 0 {
        return true;
    }
    let target = WorkNode {
        nodes,
        at,
        root: work_node(nodes, at),
    };
    may_depend_on_side_effect(file, &target)
}

// The plan behind a target.
fn plan_of_value(stops: bool) -> Plan
    ensures result { planned result ≡ plan_of_value stops }
{
    if stops { Plan::Nothing } else { Plan::All }
}

// The search of an assignment begins behind its target, or nowhere.
fn begin_assignment(
    file: &RecordFile<'_>,
    node: &WorkNode<'_>,
    shape: Shape,
    replacement: Replacement,
) -> Begun
    requires tree { Stands node.now.nodes.now node.now.at.0 }
    requires shape { shaped shape ≡ shape_of (node_of node.now.root) }
    requires assignment { is_assignment shape ≡ true }
    ensures result { BeginsAt (context_of (read file.now.bytes.now)) node.now.nodes.now node.now.at.0 replacement result }
{
    let many = usize::from(node.root.children != 0);
    let first = NodeId(node.at.0 + 1);
    let target = pass_forest(node.nodes, first, many);
    let compound = shape.is_compound_assignment();
    let stops = stops_at_target(
        file,
        node.nodes,
        first,
        many,
        replacement,
        compound,
        target.effect,
    );
    Begun {
        shape,
        plan: plan_of_value(stops),
        next: target.next,
        trees: usize::from(node.root.children) - many,
        effect: target.effect,
        stops,
        indirect: false,
    }
}

pub fn begin(file: &RecordFile<'_>, node: &WorkNode<'_>, replacement: Replacement) -> Begun
    requires tree { Stands node.now.nodes.now node.now.at.0 }
    ensures result { BeginsAt (context_of (read file.now.bytes.now)) node.now.nodes.now node.now.at.0 replacement result }
{
    let n = node.root;
    let shape = shape_of(n);
    if shape.is_assignment() {
        return begin_assignment(file, node, shape, replacement);
    }
    let first = node.first_child();
    Begun {
        shape,
        plan: plan_of(shape, n, first, replacement),
        next: NodeId(node.at.0 + 1),
        trees: usize::from(n.children),
        effect: false,
        stops: false,
        indirect: keeps_indirect(n, first, replacement),
    }
}

// "We can reorder the replacement past this expression": neither has an effect, or the replacement is a literal (1865-1872).
#[tactic(auto, unfolding(walk_rules::specs::Substitute::can_reorder))]
pub fn can_reorder(replacement: Replacement, effect: bool) -> bool
    ensures result { Reorders replacement effect result }
{
    !replacement.effect & !effect | replacement.literal
}

// Whether the search goes on behind a node whose searched children are passed. `own` is whether the node itself has an
// effect, `children` whether a child has one, and `stops` whether an assignment's target ends the search.
#[tactic(auto, unfolding(walk_rules::specs::Substitute::may_pass, walk_rules::specs::Effect::may_have_side_effects, records::specs::Tree::node_of))]
pub fn may_pass(
    file: &RecordFile<'_>,
    shape: Shape,
    n: NodeRecord,
    replacement: Replacement,
    own: bool,
    children: bool,
    stops: bool,
) -> bool
    ensures result { MayPass (context_of (read file.now.bytes.now)) shape n replacement own children stops result }
{
    let reorders = can_reorder(replacement, own | children);
    let string_key = n.is_computed();
    match shape {
        Shape::Constant => true, // "We can always reorder past literal values"
        // a settled name: "we know that the value is same even if we reordered the expression"
        Shape::Identifier => reorders || !identifier_read_blocks_reorder(file, NameId(n.label)),
        Shape::Chain => true, // its child's answer is its own
        Shape::Import => !replacement.effect & !children | reorders,
        Shape::Property => !string_key,
        Shape::Stopping => false, // "spread element may have sideeffects", and so may a computed key
        Shape::Assignment | Shape::CompoundAssignment => !stops & reorders,
        Shape::TargetName
        | Shape::Leaf
        | Shape::Delete
        | Shape::Sequence
        | Shape::Logical
        | Shape::Conditional
        | Shape::Optional
        | Shape::Steps => reorders,
    }
}
