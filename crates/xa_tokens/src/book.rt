use std::marker::Brand;

/// Names one history, by the table of its tokens. Each history of a program has a name of its own.
pub trait Book {
    ghost use Rattle.atomic_table.specs.Seated.{TableId};

    ghost table: { TableId };
}

impl Book for Brand {
    ghost use Rattle.xa_tokens.specs.Believed.View.{no_table};

    ghost table = { no_table };
}
