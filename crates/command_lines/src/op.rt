//! The operations that a line may name.

ghost use Rattle.std.specs.Prelude.{◌≡◌, map};
ghost use Rattle.command_lines.specs.Op.{op_of, op_names, keys_of};

/// What a command does, as its line names it. Operations of one shape stand together.
#[derive(Clone, Copy)]
pub(crate) enum Op {
    Insert,
    Replace,
    Modify,
    ModifyKey,
    Erase,
    Move,
    Rearrange,
    Sort,
    AddIndex,
    Get,
    Nth,
    Place,
    Range,
    OnTable(TableOp),
    OnIndex(IndexOp),
    OnKey(KeyOp),
    OnPosition(PositionOp),
}

/// What is done to a table as a whole.
#[derive(Clone, Copy)]
pub(crate) enum TableOp {
    Clear,
    Size,
}

/// What is done to an index as a whole.
#[derive(Clone, Copy)]
pub(crate) enum IndexOp {
    Reverse,
    DropIndex,
    List,
}

/// What is done at a key of an index.
#[derive(Clone, Copy)]
pub(crate) enum KeyOp {
    EraseKey,
    Find,
    Count,
    Lower,
    Upper,
    FindRank,
    LowerRank,
    UpperRank,
}

/// What is asked about a position of an index: a record's, or the end.
#[derive(Clone, Copy)]
pub(crate) enum PositionOp {
    Rank,
    Next,
    Prev,
}

impl Op {
    // The operation of a name.
    #[tactic(auto, unfolding(crate::specs::Op::op_of))]
    pub(crate) fn of(name: &str) -> Option<Op>
        ensures { result ≡ op_of name.now }
    {
        for (known, op) in Op::named() {
            if *known == name {
                return Some(*op);
            }
        }
        None
    }

    // Each operation under its name, those that are met most first, since they are compared one after another.
    fn named() -> &'static [(&'static str, Op)]
        ensures { map (λ p. (p.0.now, p.1)) result.now ≡ op_names }
    {
        &[
            ("insert", Op::Insert),
            ("find", Op::OnKey(KeyOp::Find)),
            ("size", Op::OnTable(TableOp::Size)),
            ("get", Op::Get),
            ("erase", Op::Erase),
            ("modify", Op::Modify),
            ("count", Op::OnKey(KeyOp::Count)),
            ("replace", Op::Replace),
            ("modify_key", Op::ModifyKey),
            ("erase_key", Op::OnKey(KeyOp::EraseKey)),
            ("clear", Op::OnTable(TableOp::Clear)),
            ("move", Op::Move),
            ("rearrange", Op::Rearrange),
            ("reverse", Op::OnIndex(IndexOp::Reverse)),
            ("sort", Op::Sort),
            ("lower", Op::OnKey(KeyOp::Lower)),
            ("upper", Op::OnKey(KeyOp::Upper)),
            ("range", Op::Range),
            ("nth", Op::Nth),
            ("rank", Op::OnPosition(PositionOp::Rank)),
            ("place", Op::Place),
            ("find_rank", Op::OnKey(KeyOp::FindRank)),
            ("lower_rank", Op::OnKey(KeyOp::LowerRank)),
            ("upper_rank", Op::OnKey(KeyOp::UpperRank)),
            ("next", Op::OnPosition(PositionOp::Next)),
            ("prev", Op::OnPosition(PositionOp::Prev)),
            ("list", Op::OnIndex(IndexOp::List)),
            ("add_index", Op::AddIndex),
            ("drop_index", Op::OnIndex(IndexOp::DropIndex)),
        ]
    }

    // The names that its object may have.
    pub(crate) fn keys(self) -> &'static [&'static str]
        ensures { map (λ s. s.now) result.now ≡ keys_of self }
    {
        match self {
            Op::Insert => &["op", "t", "r", "i", "p"],
            Op::Replace => &["op", "t", "h", "r"],
            Op::Modify => &["op", "t", "h", "set", "add", "rollback"],
            Op::ModifyKey => &["op", "t", "i", "h", "k", "rollback"],
            Op::Erase => &["op", "t", "h", "i"],
            Op::Move => &["op", "t", "i", "h", "p"],
            Op::Rearrange => &["op", "t", "i", "hs"],
            Op::Sort => &["op", "t", "i", "by"],
            Op::AddIndex => &["op", "t", "i", "kind", "unique", "key"],
            Op::Get => &["op", "t", "h"],
            Op::Nth => &["op", "t", "i", "n"],
            Op::Place => &["op", "t", "i", "h"],
            Op::Range => &["op", "t", "i", "ge", "gt", "le", "lt"],
            Op::OnTable(_) => &["op", "t"],
            Op::OnIndex(_) => &["op", "t", "i"],
            Op::OnKey(_) => &["op", "t", "i", "k"],
            Op::OnPosition(_) => &["op", "t", "i", "h"],
        }
    }
}
