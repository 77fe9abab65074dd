//! Two lists over three nodes.

ghost use Rattle.std.specs.Prelude.{◌≡◌, [], ◌∷◌};

use ih_fixtures::share;
use ih_links::Links;
use std::alloc::Global;

// Whether a node leaves the first list, which then has the other node alone. The second keeps its one.
fn closes_up(links: &mut Links) -> bool
    requires lists { links.old.lists ≡ [] ∷ [] ∷ [] }
    requires nodes { links.old.nodes ≡ 3 }
{
    links.push_back(0, 2);
    links.push_back(0, 0);
    links.push_back(1, 1);
    links.remove(2);
    links.first(0) == Some(0)
        && links.next(0).is_none()
        && links.home(2).is_none()
        && links.len(0) == 1
        && links.len(1) == 1
}

fn lists_close_up(alloc: Global) -> bool {
    match Links::new(alloc, 2, 3) {
        Ok(mut links) => {
            share(&links);
            closes_up(&mut links)
        }
        Err(_) => false,
    }
}

#[test]
fn a_node_leaves_and_the_list_closes_up(rt: HostRuntime) {
    assert!(rt; lists_close_up(rt.alloc()));
}
