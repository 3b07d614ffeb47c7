// The set of the ways in which a statement may end.
ghost use Rattle.std.specs.Prelude.{◌≡◌, Some};
ghost use Rattle.behavior.specs.Rules.{beyond_next, followed, looped, plus_next, tested, turned, union};
ghost use Rattle.behavior.specs.Written.{member_text, set_text};

use std::fmt;

#[derive(Clone, Copy, PartialEq, Eq, Debug)]
pub struct Behavior {
    pub next: bool,
    pub breaks: bool,
    pub continues: bool,
    pub returns: bool,
}

pub const NONE: Behavior = Behavior {
    next: false,
    breaks: false,
    continues: false,
    returns: false,
};

pub(crate) const NEXT: Behavior = Behavior { next: true, ..NONE };

pub(crate) const BREAK: Behavior = Behavior {
    breaks: true,
    ..NONE
};

pub(crate) const CONTINUE: Behavior = Behavior {
    continues: true,
    ..NONE
};

pub(crate) const RETURN: Behavior = Behavior {
    returns: true,
    ..NONE
};

impl Behavior {
    // What is in either set.
    pub(crate) fn union(self, other: Behavior) -> Behavior
        ensures { result ≡ union self other }
    {
        Behavior {
            next: self.next || other.next,
            breaks: self.breaks || other.breaks,
            continues: self.continues || other.continues,
            returns: self.returns || other.returns,
        }
    }

    // The set of a list so far, with the set of the statement that follows.
    pub(crate) fn followed(self, by: Behavior) -> Behavior
        ensures { result ≡ followed self by }
    {
        if self.next {
            Behavior {
                next: by.next,
                ..self.union(by)
            }
        } else {
            self
        }
    }

    // With Next if asked.
    pub(crate) fn plus_next(self, more: bool) -> Behavior
        ensures { result ≡ plus_next self more }
    {
        Behavior {
            next: self.next || more,
            ..self
        }
    }

    // The bodies of a switch: Break turned to Next.
    pub(crate) fn turned(self) -> Behavior
        ensures { result ≡ turned self }
    {
        Behavior {
            next: self.next || self.breaks,
            breaks: false,
            ..self
        }
    }

    // A loop of this body, which ends by Break, or by a break-if if there is one.
    pub(crate) fn looped(self, exits: bool) -> Behavior
        ensures { result ≡ looped self exits }
    {
        Behavior {
            next: self.breaks || exits,
            returns: self.returns,
            ..NONE
        }
    }

    // A loop of this body under a condition.
    pub(crate) fn tested(self) -> Behavior
        ensures { result ≡ tested self }
    {
        Behavior {
            next: true,
            returns: self.returns,
            ..NONE
        }
    }

    // Whether there is more than Next.
    pub fn beyond_next(self) -> bool
        ensures { result ≡ beyond_next self }
    {
        self.breaks || self.continues || self.returns
    }
}

// A way that may be in a set, as it is written there.
#[derive(Clone, Copy)]
struct Member {
    is_member: bool,
    follows: bool,
    name: &'static str,
}

impl fmt::Display for Member {
    ghost output = { λ member. Some (member_text member.is_member member.follows member.name.now) };

    fn fmt<W: fmt::Write>(&self, f: &mut fmt::Formatter<W>) -> fmt::Result {
        match (self.is_member, self.follows) {
            (false, _) => Ok(()),
            (true, false) => f.write_str(self.name),
            (true, true) => write!(f, ", {}", self.name),
        }
    }
}

impl fmt::Display for Behavior {
    ghost output = { λ set. Some (set_text set) };

    fn fmt<W: fmt::Write>(&self, f: &mut fmt::Formatter<W>) -> fmt::Result {
        let next = Member {
            is_member: self.next,
            follows: false,
            name: "Next",
        };
        let breaks = Member {
            is_member: self.breaks,
            follows: self.next,
            name: "Break",
        };
        let continues = Member {
            is_member: self.continues,
            follows: self.next || self.breaks,
            name: "Continue",
        };
        let returns = Member {
            is_member: self.returns,
            follows: self.next || self.breaks || self.continues,
            name: "Return",
        };
        write!(f, "{{{next}{breaks}{continues}{returns}}}")
    }
}
