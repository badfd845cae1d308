// Copies of trees and of the code of tasks: that each is made where there is memory. That a copy equals its source is proved.
use crate::tree_tests::has_copied_tree;
use iec_tables::elem::Elem;
use st_tree::{
    Argument, Branch, Case, Cell, CellInfo, Code, Component, Expr, FieldInit, FilePart, Identifier,
    Init, Item, Node, NodeNo, Number, Operation, Operator, Part, Site, TaskCode, Types,
};
use station_ports::outside::NoMemory;
use station_ports::texts::Name;
use std::alloc::Global;
use tree_copies::{Copied, copy_code, copy_component, copy_task_code};
use tree_items::{Boxed, Items};

/// A text with each kind of declaration, statement, expression and part of a chart.
const TEXT: &str = "TYPE T : INT (0 .. 9) := 1; E : (A, B); \
    S : STRUCT x, y : ARRAY[0 .. 2, 1 .. 3] OF T := [1, 2(3)]; END_STRUCT := (x := [1]); END_TYPE \
    VAR_GLOBAL CONSTANT g AT %IW0 : T := -4; END_VAR \
    FUNCTION F : INT VAR_INPUT a : INT; END_VAR F := a; END_FUNCTION \
    FUNCTION G : T END_FUNCTION \
    FUNCTION_BLOCK B VAR i : T; END_VAR \
    IF NOT (a = 1) AND x.y[1, 2] THEN a := F(a := T#1s, 2) + INT#3; ELSIF TRUE THEN RETURN; \
    ELSE b(p := -a, q => r.s); END_IF; \
    CASE a OF 1 .. 2, E#A, -3, INT#4, k: EXIT; ELSE CONTINUE; END_CASE; \
    FOR i := 1 TO 2 BY 3 DO a := E#B; END_FOR; FOR i := 1 TO 2 DO END_FOR; \
    WHILE %IX0.1 DO a := 1; END_WHILE; REPEAT a := 1; UNTIL a >= 2 END_REPEAT; \
    END_FUNCTION_BLOCK \
    PROGRAM P INITIAL_STEP s0: act(N); b(); END_STEP STEP s1: END_STEP \
    TRANSITION t FROM s0 TO (s1, s2) := a; END_TRANSITION TRANSITION FROM s1 TO s0 := b; \
    END_TRANSITION ACTION act: a := 1; END_ACTION END_PROGRAM \
    CONFIGURATION C VAR_GLOBAL h : INT; END_VAR \
    RESOURCE r ON cpu TASK k (INTERVAL := T#1s, PRIORITY := 1); PROGRAM p WITH k : P; END_RESOURCE \
    PROGRAM q : P; END_CONFIGURATION (* end *)\n";

#[test]
fn files_are_copied(rt: HostRuntime) {
    assert!(rt; has_copied_tree(&rt, TEXT));
}

/// Whether the tree is made and copied.
fn is_copied<T: Copied>(alloc: Global, tree: Result<T, NoMemory>) -> bool {
    match tree {
        Ok(tree) => tree.copy(alloc).is_ok(),
        Err(_) => false,
    }
}

const NODE: Node = Node {
    number: NodeNo(0),
    start: 0,
    end: 4,
};

fn name(alloc: Global) -> Result<Identifier, NoMemory> {
    Ok(Identifier {
        node: NODE,
        name: Name::of(alloc, b"name")?,
    })
}

fn truth(alloc: Global) -> Result<Boxed<Expr>, NoMemory> {
    Ok(Boxed::new(alloc, Expr::Truth(NODE, true))?)
}

fn part(alloc: Global) -> Result<Part, NoMemory> {
    Ok(Part::Field(name(alloc)?))
}

fn argument(alloc: Global) -> Result<Argument, NoMemory> {
    Ok(Argument {
        node: NODE,
        name: None,
        value: truth(alloc)?,
    })
}

fn branch(alloc: Global) -> Result<Branch, NoMemory> {
    Ok(Branch {
        condition: truth(alloc)?,
        body: Items::new(alloc),
    })
}

fn file_part(alloc: Global) -> FilePart {
    FilePart::Types(Types {
        node: NODE,
        decls: Items::new(alloc),
    })
}

fn case(alloc: Global) -> Case {
    Case {
        labels: Items::new(alloc),
        body: Items::new(alloc),
    }
}

fn item(alloc: Global) -> Result<Item, NoMemory> {
    Ok(Item::One(Init::Value(truth(alloc)?)))
}

fn field(alloc: Global) -> Result<FieldInit, NoMemory> {
    let name = name(alloc)?;
    Ok(FieldInit {
        node: NODE,
        name,
        value: Init::Array(NODE, Items::new(alloc)),
    })
}

#[test]
fn parts_of_trees_are_copied(rt: HostRuntime) {
    let alloc = rt.alloc();
    assert!(rt; is_copied(alloc, part(alloc)));
    assert!(rt; is_copied(alloc, argument(alloc)));
    assert!(rt; is_copied(alloc, branch(alloc)));
    assert!(rt; is_copied(alloc, Ok(case(alloc))));
    assert!(rt; is_copied(alloc, Ok(file_part(alloc))));
    assert!(rt; is_copied(alloc, item(alloc)));
    assert!(rt; is_copied(alloc, field(alloc)));
}

/// `own := shared + 1`
fn sum(alloc: Global) -> Result<Code, NoMemory> {
    let code = Code::Write(Cell::Own(0), Box::new(alloc, Code::Done)?);
    let operation = Operation {
        site: Site {
            file: 0,
            node: NodeNo(0),
        },
        elem: Elem::Int,
        operator: Operator::Add,
    };
    let code = Code::Operate(operation, Box::new(alloc, code)?);
    let code = Code::Literal(Number { value: 1 }, Box::new(alloc, code)?);
    Ok(Code::Read(Cell::Shared(0), Box::new(alloc, code)?))
}

fn cells(alloc: Global) -> Result<Items<CellInfo>, NoMemory> {
    let mut cells = Items::new(alloc);
    cells.push(CellInfo {
        path: Name::of(alloc, b"own")?,
        elem: Elem::Int,
        start: 0,
    })?;
    Ok(cells)
}

fn task(alloc: Global) -> Result<TaskCode, NoMemory> {
    let cells = cells(alloc)?;
    Ok(TaskCode {
        code: sum(alloc)?,
        cells,
    })
}

fn component(alloc: Global) -> Result<Component, NoMemory> {
    let mut tasks = Items::new(alloc);
    tasks.push(task(alloc)?)?;
    let shared = cells(alloc)?;
    Ok(Component {
        tasks,
        shared,
        literals: Items::from_slice(alloc, &[1])?,
    })
}

/// How many instructions a code has, and whether its first one reads a shared cell.
fn form_of(code: &Code) -> (usize, bool) {
    let first = match code {
        Code::Read(Cell::Shared(_), _) => true,
        _ => false,
    };
    let mut count = 0usize;
    let mut rest = code;
    loop {
        match rest {
            Code::Done => return (count, first),
            Code::Literal(_, behind) => rest = behind,
            Code::Read(_, behind) => rest = behind,
            Code::Operate(_, behind) => rest = behind,
            Code::Write(_, behind) => rest = behind,
        }
        count = count.saturating_add(1);
    }
}

fn is_code_copied(alloc: Global) -> Result<bool, NoMemory> {
    let code = sum(alloc)?;
    let copy = copy_code(alloc, &code)?;
    Ok(form_of(&copy) == (4, true))
}

fn is_task_copied(alloc: Global) -> Result<bool, NoMemory> {
    let task = task(alloc)?;
    let copy = copy_task_code(alloc, &task)?;
    Ok(copy.cells.len() == 1)
}

fn is_component_copied(alloc: Global) -> Result<bool, NoMemory> {
    let component = component(alloc)?;
    let copy = copy_component(alloc, &component)?;
    Ok(copy.tasks.len() == 1)
}

#[test]
fn code_is_copied(rt: HostRuntime) {
    let alloc = rt.alloc();
    assert!(rt; is_code_copied(alloc) == Ok(true));
    assert!(rt; is_task_copied(alloc) == Ok(true));
    assert!(rt; is_component_copied(alloc) == Ok(true));
}
