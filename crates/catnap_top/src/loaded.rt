use cat_machine::Working;
use cn_object::Object;

/// So many sections of an object, from a working state between two sections.
#[derive(Drop)]
pub struct Loaded {
    pub steps: u32,
    pub object: Object,
    pub working: Working,
}
