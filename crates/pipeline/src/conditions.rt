//! Two small trees. The table of sources runs where trees are parsed, above.

use cat_conditions::TypeFault;
use cat_types::{check, verdict};
use cn_base::Text;
use cn_base::tree::{Item, Tree};
use sqlite_items::Items;
use std::test::Fail;

#[test]
fn empty_source_is_checked(rt: HostRuntime) {
    let alloc = rt.alloc();
    let tree = Tree {
        items: Items::new(alloc),
    };
    assert!(rt; verdict(alloc, &tree).is_ok());
}

/// `int x = -3; task t { } start t; start t;`
#[test]
fn program_of_a_source(rt: HostRuntime) -> Result<(), Fail> {
    let alloc = rt.alloc();
    let mut items = Items::new(alloc);
    items.push(Item::Int(Text::of(String::from_str(alloc, "x")?), true, 3))?;
    items.push(Item::Task(Text::of(String::from_str(alloc, "t")?), Items::new(alloc)))?;
    items.push(Item::Start(Text::of(String::from_str(alloc, "t")?)))?;
    items.push(Item::Start(Text::of(String::from_str(alloc, "t")?)))?;
    let tree = Tree { items };
    match check(alloc, &tree) {
        Ok(program) => {
            assert!(rt; program.first_words() == [-3].as_slice());
            assert!(rt; program.first_posts() == [2].as_slice());
            assert!(rt; program.bodies() == [0].as_slice());
            assert_eq!(rt; program.events(), 0);
        }
        Err(_) => assert!(rt; false),
    }
    Ok(())
}

/// `start t;`
#[test]
fn fault_of_a_source(rt: HostRuntime) -> Result<(), Fail> {
    let alloc = rt.alloc();
    let mut items = Items::new(alloc);
    items.push(Item::Start(Text::of(String::from_str(alloc, "t")?)))?;
    let tree = Tree { items };
    match check(alloc, &tree) {
        Ok(_) => assert!(rt; false),
        Err(fault) => assert_eq!(rt; fault, TypeFault::Unknown(0)),
    }
    Ok(())
}
