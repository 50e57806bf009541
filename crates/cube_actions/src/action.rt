/// Whether a player who may double does.
#[derive(Clone, Copy)]
pub enum Offer {
    NoDouble,
    Double,
}

/// What a player does who was doubled.
#[derive(Clone, Copy)]
pub enum Answer {
    Take,
    Pass,
    Beaver,
}
