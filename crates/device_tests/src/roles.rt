//! The graph of roles: what is reached while grants come and go, and the order of a chain.
use role_graph::{Added, Graph, NODES, NodeSet};
use std::process::Abort;
use std::test::Fail;

// The nodes of the digits of a text.
fn set_of(digits: &str) -> NodeSet {
    let mut set = NodeSet::new();
    for byte in digits.as_bytes() {
        set.insert(u32::from(*byte & 15));
    }
    set
}

#[derive(Clone, Copy)]
enum Act {
    Add,
    AddLoop,
    Allow,
    Remove,
    RemoveNone,
    Drop,
}

// What is done to an edge; then a node, the digits of what it reaches, and of what reaches it.
struct Step {
    act: Act,
    role: u32,
    to: u32,
    node: u32,
    reached: &'static str,
    reached_by: &'static str,
}

// First 7 comes to hold 5 and 6, which both hold 2.
static STEPS: [Step; 14] = [
    Step {
        act: Act::Add,
        role: 2,
        to: 5,
        node: 2,
        reached: "2",
        reached_by: "25",
    },
    Step {
        act: Act::Add,
        role: 2,
        to: 6,
        node: 2,
        reached: "2",
        reached_by: "256",
    },
    Step {
        act: Act::Add,
        role: 6,
        to: 7,
        node: 7,
        reached: "267",
        reached_by: "7",
    },
    Step {
        act: Act::Add,
        role: 5,
        to: 7,
        node: 7,
        reached: "2567",
        reached_by: "7",
    },
    Step {
        act: Act::Add,
        role: 5,
        to: 7,
        node: 2,
        reached: "2",
        reached_by: "2567",
    },
    Step {
        act: Act::Allow,
        role: 2,
        to: 5,
        node: 2,
        reached: "2",
        reached_by: "2567",
    },
    Step {
        act: Act::AddLoop,
        role: 7,
        to: 2,
        node: 2,
        reached: "2",
        reached_by: "2567",
    },
    Step {
        act: Act::Remove,
        role: 2,
        to: 5,
        node: 7,
        reached: "2567",
        reached_by: "7",
    },
    Step {
        act: Act::RemoveNone,
        role: 2,
        to: 5,
        node: 2,
        reached: "2",
        reached_by: "267",
    },
    Step {
        act: Act::Remove,
        role: 6,
        to: 7,
        node: 7,
        reached: "57",
        reached_by: "7",
    },
    Step {
        act: Act::Add,
        role: 7,
        to: 2,
        node: 6,
        reached: "2567",
        reached_by: "6",
    },
    Step {
        act: Act::AddLoop,
        role: 6,
        to: 5,
        node: 5,
        reached: "5",
        reached_by: "2567",
    },
    Step {
        act: Act::Drop,
        role: 7,
        to: 7,
        node: 6,
        reached: "26",
        reached_by: "6",
    },
    Step {
        act: Act::Add,
        role: 6,
        to: 5,
        node: 5,
        reached: "256",
        reached_by: "5",
    },
];

// Whether the graph answers as the step says.
fn take(rt: &impl Abort, graph: &mut Graph, act: Act, role: u32, to: u32) -> Result<bool, Fail> {
    graph.reserve(1)?;
    assert!(rt; role < NODES && to < NODES);
    Ok(match act {
        Act::Add => graph.add_edge(role, to, false) == Added::Ok,
        Act::AddLoop => graph.add_edge(role, to, false) == Added::Loop,
        Act::Allow => graph.add_edge(role, to, true) == Added::Ok
            && graph.admin_of(role, to) == Some(true),
        Act::Remove => graph.remove_edge(role, to),
        Act::RemoveNone => !graph.remove_edge(role, to),
        Act::Drop => {
            graph.drop_node(role);
            true
        }
    })
}

#[test]
fn paths_come_and_go(rt: HostRuntime) -> Result<(), Fail> {
    let mut graph = Graph::new(rt.alloc());
    for step in &STEPS {
        assert!(rt; take(&rt, &mut graph, step.act, step.role, step.to)?);
        assert!(rt; step.node < NODES);
        assert!(rt; graph.reach(step.node) == set_of(step.reached));
        assert!(rt; graph.reached_by(step.node) == set_of(step.reached_by));
    }
    let copied = graph.copy(rt.alloc())?;
    assert!(rt; copied.reach(5) == set_of("256"));
    Ok(())
}

// The nodes up to the last hold one another in a chain: 0 holds 1, and so on.
fn chain(rt: &impl Abort, graph: &mut Graph, last: u32) -> Result<(), Fail> {
    assert!(rt; last < NODES);
    for node in 0..last {
        assert!(rt; take(rt, graph, Act::Add, node + 1, node)?);
    }
    Ok(())
}

#[test]
fn a_chain_is_written_from_its_end(rt: HostRuntime) -> Result<(), Fail> {
    for last in [0, 49, 4095] {
        let mut graph = Graph::new(rt.alloc());
        chain(&rt, &mut graph, last)?;
        let reached = graph.reach(0);
        assert!(rt; reached == graph.reached_by(last));
        let mut order = [0; 4096];
        let count = graph.order_of(&reached, &mut order);
        assert_eq!(rt; count, last as usize + 1);
        for place in 0..count {
            assert!(rt; order[place] as usize == last as usize - place);
        }
    }
    Ok(())
}
