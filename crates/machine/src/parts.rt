// What a machine is made over, handed back at its end.
#[derive(Drop)]
pub struct Parts<M, S, V, R> {
    pub map: M,
    pub memory: S,
    pub v_rule: V,
    pub r_rule: R,
}
