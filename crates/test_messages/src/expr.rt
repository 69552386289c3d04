use crate::support::{expect, typed_of};
use kd_expr::{Expr, ExprFault, Node, TypeFault, Typed, read, type_of};
use std::alloc::Global;
use std::test::Fail;

// Reports whether a tree is the negation of a comparison of two values, with these positions of the
// four nodes, each node before its operands.
fn has_places(tree: &Node, places: [usize; 4]) -> bool {
    let Node::Not { operand, .. } = tree else {
        return false;
    };
    let Node::Equal { left, right, .. } = operand.as_ref() else {
        return false;
    };
    [tree.at(), operand.at(), left.at(), right.at()] == places
}

// Returns the fault of a text that is no expression.
fn fault_of(alloc: Global, text: &[u8]) -> Option<ExprFault> {
    read(alloc, text).err()
}

// The rest of the tree shows in what a class test is compiled to, which the cases cover.
#[test]
fn nodes_have_their_places(rt: HostRuntime) -> Result<(), Fail> {
    let typed = typed_of(rt.alloc(), b" not 'a' + 'b' == '\x00\xff \"#'")?;
    expect_places(&typed)
}

// Checks the places of the nodes of that class test, and how many they are.
fn expect_places(typed: &Typed) -> Result<(), Fail> {
    expect(has_places(typed.tree(), [1, 5, 5, 18]), "four places")?;
    expect(typed.nodes() == 6, "six nodes")
}

// Texts that cannot be arguments of a command line, because they are not UTF-8 or contain a zero
// byte, with the position of the fault.
#[test]
fn bytes_that_no_word_has_are_bad(rt: HostRuntime) {
    let rows: [(&[u8], usize); 5] = [
        (b"\x00", 0),
        (b"\x80", 0),
        (b"'a' \xff", 4),
        (b"'a' == \x00", 7),
        (b"option[1].exists\x80", 16),
    ];
    for (text, at) in &rows {
        assert!(rt;
            fault_of(rt.alloc(), text) == Some(ExprFault::BadToken(*at)),
            "{text:?}"
        );
    }
}

// Reports whether an expression has a type fault, and the expression that is returned has it as
// well.
fn is_refused_twice(expr: Expr) -> bool {
    match type_of(expr) {
        Ok(_typed) => false,
        Err((fault, again)) => type_fault_of(again) == Some(fault),
    }
}

// Returns the type fault of an expression that is no class test.
fn type_fault_of(expr: Expr) -> Option<TypeFault> {
    type_of(expr).err().map(fault_in)
}

// Returns a type fault, and drops the expression that has it.
fn fault_in(refusal: (TypeFault, Expr)) -> TypeFault {
    refusal.0
}

#[test]
fn an_expression_that_is_no_test_comes_back(rt: HostRuntime) -> Result<(), Fail> {
    let rows: [&[u8]; 4] = [
        b"(1) == option[1].exists",
        b"ifelse(option[1].exists,option[2].exists,'c') == 'd'",
        b"hexstring('a',option[1].exists) == 'a'",
        b"uint32totext(option[1].exists) == 'a'",
    ];
    for text in &rows {
        assert!(rt; is_refused_twice(read(rt.alloc(), text)?), "{text:?}");
    }
    Ok(())
}
