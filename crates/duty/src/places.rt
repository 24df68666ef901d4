// Where a rule stands in its rule tree and on the sheet.
ghost use Rattle.std.specs.Prelude.{◌≡◌, ◌+◌, ◌-◌, ◌<◌, ◌≤◌};

// The number of the rule's own node, the level of its entries, and how many nodes may still stand inside one
// another from there on.
#[derive(Clone, Copy)]
pub(crate) struct Place {
    pub node: u8,
    pub level: u8,
    pub budget: u8,
}

impl Place {
    // A rule inside, some nodes further on, at the same level.
    pub(crate) fn inside(self, nodes: u8) -> Place
        requires node { self.node + nodes < 256 }
        requires budget { 1 ≤ self.budget }
        ensures node { result.node ≡ self.node + nodes }
        ensures level { result.level ≡ self.level }
        ensures budget { result.budget ≡ self.budget - 1 }
    {
        Place {
            node: self.node + nodes,
            level: self.level,
            budget: self.budget - 1,
        }
    }

    // A rule inside, some nodes further on, one level deeper.
    pub(crate) fn below(self, nodes: u8) -> Place
        requires node { self.node + nodes < 256 }
        requires level { self.level + 1 < 256 }
        requires budget { 1 ≤ self.budget }
        ensures node { result.node ≡ self.node + nodes }
        ensures level { result.level ≡ self.level + 1 }
        ensures budget { result.budget ≡ self.budget - 1 }
    {
        Place {
            level: self.level + 1,
            ..self.inside(nodes)
        }
    }
}
