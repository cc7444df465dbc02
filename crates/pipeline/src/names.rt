//! A source of three items and its program.

use cat_resolve::resolve;
use cn_base::Text;
use cn_base::tree::{Item, Tree};
use sqlite_items::Items;
use std::test::Fail;

/// `int x = -3; task t { } start t;`
#[test]
fn parts_of_a_source(rt: HostRuntime) -> Result<(), Fail> {
    let alloc = rt.alloc();
    let mut items = Items::new(alloc);
    items.push(Item::Int(Text::of(String::from_str(alloc, "x")?), true, 3))?;
    items.push(Item::Task(Text::of(String::from_str(alloc, "t")?), Items::new(alloc)))?;
    items.push(Item::Start(Text::of(String::from_str(alloc, "t")?)))?;
    let tree = Tree { items };
    let parts = resolve(alloc, &tree)?;
    assert!(rt; parts.words.as_slice() == [-3].as_slice());
    assert!(rt; parts.started.as_slice() == [1].as_slice());
    assert!(rt; parts.tasks.as_slice() == [0].as_slice());
    assert_eq!(rt; parts.blocks.len(), 1);
    Ok(())
}
