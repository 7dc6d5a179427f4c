// A queue over a lent row of places, one for each code, which looks through them all.
mod methods;

#[derive(Drop)]
pub struct Row<'a, K> {
    places: &'a mut [Option<K>],
}
