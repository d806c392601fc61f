// The replacement rules of a processor's two caches: that of the V-cache and that of the R-cache.
#[derive(Clone, Copy, Debug, Drop, PartialEq, Eq)]
pub struct CacheRules<V, R> {
    pub v: V,
    pub r: R,
}
