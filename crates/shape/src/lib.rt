#![tactic(auto)]
// What the body of each tag looks like: the one table by which bodies are walked and children are checked.
ghost use Rattle.std.specs.Prelude.{◌≡◌};
ghost use Rattle.std.specs.Option.{option_map};
ghost use Rattle.shape.specs.Shapes.{construct_of, fits, layout_of, row, row_at, takes};

// What an entry says.
#[derive(Clone, Copy, PartialEq, Eq, Debug)]
pub enum Construct {
    Unit,
    Empty,
    Compound,
    Assignment,
    Increment,
    Decrement,
    If,
    Switch,
    Loop,
    For,
    While,
    Break,
    Continue,
    Return,
    Discard,
    CallStatement,
    ConstAssert,
    Declaration,
    Continuing,
    Literal,
    Parenthesized,
    Unary,
    Binary,
    Name,
    Call,
    Function,
}

// The entries that a field takes for its child.
#[derive(Clone, Copy, PartialEq, Eq, Debug)]
pub enum Child {
    Expression,
    Statement,
    Body,
    Call,
    Continuing,
    Initializer,
    Update,
    Member,
}

// What a word of a body is.
#[derive(Clone, Copy, PartialEq, Eq, Debug)]
pub enum Field {
    Number { least: u16, most: u16 },
    Child(Child),
    Optional(Child),
}

// A construct, and the fields of its body behind the tag: the head, the group as often as the head's last field says,
// and the tail.
#[derive(Clone, Copy, Debug)]
pub struct Shape {
    pub construct: Construct,
    pub head: &'static [Field],
    pub group: &'static [Field],
    pub tail: &'static [Field],
}

const WORD: Field = Field::Number {
    least: 0,
    most: 65535,
};

const NAME: Field = Field::Number {
    least: 0,
    most: 65534,
};

const TYPE: Field = Field::Number {
    least: 0,
    most: 65535,
};

const PARAMETER_TYPE: Field = Field::Number {
    least: 0,
    most: 65534,
};

const ASSIGNMENT_OPERATOR: Field = Field::Number { least: 0, most: 8 };

const UNARY_OPERATOR: Field = Field::Number { least: 0, most: 2 };

const BINARY_OPERATOR: Field = Field::Number { least: 0, most: 15 };

const DECLARATION_KIND: Field = Field::Number { least: 0, most: 2 };

const FLAGS: Field = Field::Number { least: 0, most: 3 };

const COUNT: Field = Field::Number { least: 0, most: 64 };

const IF_COUNT: Field = Field::Number { least: 1, most: 64 };

const ARGUMENT_COUNT: Field = Field::Number { least: 0, most: 16 };

const MEMBER: Field = Field::Child(Child::Member);

const STATEMENT: Field = Field::Child(Child::Statement);

const EXPRESSION: Field = Field::Child(Child::Expression);

const OPTIONAL_EXPRESSION: Field = Field::Optional(Child::Expression);

const BODY: Field = Field::Child(Child::Body);

const OPTIONAL_BODY: Field = Field::Optional(Child::Body);

const CALL: Field = Field::Child(Child::Call);

const OPTIONAL_CONTINUING: Field = Field::Optional(Child::Continuing);

const OPTIONAL_INITIALIZER: Field = Field::Optional(Child::Initializer);

const OPTIONAL_UPDATE: Field = Field::Optional(Child::Update);

// The table over the tags 0 to 48.
static SHAPES: [Option<Shape>; 49] = [
    Some(Shape {
        construct: Construct::Unit,
        head: &[COUNT],
        group: &[MEMBER],
        tail: &[],
    }),
    Some(Shape {
        construct: Construct::Empty,
        head: &[],
        group: &[],
        tail: &[],
    }),
    Some(Shape {
        construct: Construct::Compound,
        head: &[COUNT],
        group: &[STATEMENT],
        tail: &[],
    }),
    Some(Shape {
        construct: Construct::Assignment,
        head: &[ASSIGNMENT_OPERATOR, EXPRESSION, EXPRESSION],
        group: &[],
        tail: &[],
    }),
    Some(Shape {
        construct: Construct::Increment,
        head: &[EXPRESSION],
        group: &[],
        tail: &[],
    }),
    Some(Shape {
        construct: Construct::Decrement,
        head: &[EXPRESSION],
        group: &[],
        tail: &[],
    }),
    Some(Shape {
        construct: Construct::If,
        head: &[IF_COUNT],
        group: &[EXPRESSION, BODY],
        tail: &[OPTIONAL_BODY],
    }),
    Some(Shape {
        construct: Construct::Switch,
        head: &[EXPRESSION, COUNT],
        group: &[OPTIONAL_EXPRESSION, BODY],
        tail: &[],
    }),
    Some(Shape {
        construct: Construct::Loop,
        head: &[BODY, OPTIONAL_CONTINUING],
        group: &[],
        tail: &[],
    }),
    Some(Shape {
        construct: Construct::For,
        head: &[
            OPTIONAL_INITIALIZER,
            OPTIONAL_EXPRESSION,
            OPTIONAL_UPDATE,
            BODY,
        ],
        group: &[],
        tail: &[],
    }),
    Some(Shape {
        construct: Construct::While,
        head: &[EXPRESSION, BODY],
        group: &[],
        tail: &[],
    }),
    Some(Shape {
        construct: Construct::Break,
        head: &[],
        group: &[],
        tail: &[],
    }),
    Some(Shape {
        construct: Construct::Continue,
        head: &[],
        group: &[],
        tail: &[],
    }),
    Some(Shape {
        construct: Construct::Return,
        head: &[OPTIONAL_EXPRESSION],
        group: &[],
        tail: &[],
    }),
    Some(Shape {
        construct: Construct::Discard,
        head: &[],
        group: &[],
        tail: &[],
    }),
    Some(Shape {
        construct: Construct::CallStatement,
        head: &[CALL],
        group: &[],
        tail: &[],
    }),
    Some(Shape {
        construct: Construct::ConstAssert,
        head: &[EXPRESSION],
        group: &[],
        tail: &[],
    }),
    Some(Shape {
        construct: Construct::Declaration,
        head: &[DECLARATION_KIND, NAME, TYPE, OPTIONAL_EXPRESSION],
        group: &[],
        tail: &[],
    }),
    Some(Shape {
        construct: Construct::Continuing,
        head: &[BODY, OPTIONAL_EXPRESSION],
        group: &[],
        tail: &[],
    }),
    None,
    None,
    None,
    None,
    None,
    None,
    None,
    None,
    None,
    None,
    None,
    None,
    None,
    Some(Shape {
        construct: Construct::Literal,
        head: &[WORD, WORD, WORD, WORD, WORD],
        group: &[],
        tail: &[],
    }),
    Some(Shape {
        construct: Construct::Parenthesized,
        head: &[EXPRESSION],
        group: &[],
        tail: &[],
    }),
    Some(Shape {
        construct: Construct::Unary,
        head: &[UNARY_OPERATOR, EXPRESSION],
        group: &[],
        tail: &[],
    }),
    Some(Shape {
        construct: Construct::Binary,
        head: &[BINARY_OPERATOR, EXPRESSION, EXPRESSION],
        group: &[],
        tail: &[],
    }),
    Some(Shape {
        construct: Construct::Name,
        head: &[NAME],
        group: &[],
        tail: &[],
    }),
    Some(Shape {
        construct: Construct::Call,
        head: &[NAME, ARGUMENT_COUNT],
        group: &[EXPRESSION],
        tail: &[],
    }),
    None,
    None,
    None,
    None,
    None,
    None,
    None,
    None,
    None,
    None,
    Some(Shape {
        construct: Construct::Function,
        head: &[NAME, FLAGS, TYPE, BODY, ARGUMENT_COUNT],
        group: &[NAME, PARAMETER_TYPE],
        tail: &[],
    }),
];

// The row of a tag, none past the last.
#[tactic(auto, unfolding(crate::specs::Shapes::row_at))]
fn row_at(rows: &[Option<Shape>], tag: u16) -> Option<&Shape>
    ensures { option_map (λ s. row s.now) result ≡ row_at rows.now tag }
{
    rows.get(tag as usize)?.as_ref()
}

// The shape of a tag's body, none for an unknown tag.
pub fn shape_of(tag: u16) -> Option<&'static Shape>
    ensures { option_map (λ s. row s.now) result ≡ option_map (λ c. (c, layout_of c)) (construct_of tag) }
{
    row_at(&SHAPES, tag)
}

impl Field {
    // Whether the word may stand in the field; a child is judged by `takes`.
    pub fn fits(self, word: u16) -> bool
        ensures { result ≡ fits self word }
    {
        match self {
            Field::Number { least, most } => (least..=most).contains(&word),
            _ => true,
        }
    }
}

impl Child {
    // Whether an entry of the tag may be the child.
    pub fn takes(self, tag: u16) -> bool
        ensures { result ≡ takes self tag }
    {
        match self {
            Child::Expression => matches!(tag, 32..=37),
            Child::Statement => matches!(tag, 1..=17),
            Child::Body => tag == 2,
            Child::Call => tag == 37,
            Child::Continuing => tag == 18,
            Child::Initializer => matches!(tag, 3 | 4 | 5 | 15 | 17),
            Child::Update => matches!(tag, 3 | 4 | 5 | 15),
            Child::Member => matches!(tag, 1..=17 | 48),
        }
    }
}
