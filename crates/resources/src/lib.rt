// What a resource number names (document 01, "Scheme").

#![tactic(auto)]

ghost use Rattle.std.specs.Prelude.{◌+◌, ◌<◌};
ghost use Rattle.model.specs.Decides.{Decides};
ghost use Rattle.resources.specs.Named.{ResourceOf};

use tables::Summary;

// What a resource number names.
#[derive(Clone, Copy, Debug, PartialEq, Eq)]
pub enum Resource {
    Search,
    Traversal,
    Primitive(usize),
    Item(usize),
}

// What a resource number names, if anything.
pub fn classify(c: Summary, r: usize) -> Option<Resource>
    ensures { ResourceOf c.primitives c.items r result }
{
    match r {
        0 => Some(Resource::Search),
        1 => Some(Resource::Traversal),
        2..=25 => {
            let a = r - 2;
            if a < c.primitives {
                return Some(Resource::Primitive(a));
            }
            let o = a - c.primitives;
            if o < c.items {
                Some(Resource::Item(o))
            } else {
                None
            }
        }
        _ => None,
    }
}

// Whether a number names a resource.
pub fn is_resource(c: Summary, r: usize) -> bool
    ensures { Decides result (r < 2 + c.primitives + c.items) }
{
    classify(c, r).is_some()
}
