// Insertion into an array that is kept in order.
ghost use Rattle.std.specs.Prelude.{◌≡◌};
ghost use Rattle.base.specs.Insertion.{moved};

// Moves the items from `place` to `total` up by one, and puts `item` there; nothing where that is no part of the slice.
pub fn insert_at<T: Copy>(order: &mut [T], place: usize, total: usize, item: T)
    ensures { order.new ≡ moved order.old place total item }
{
    if place <= total && total < order.len() {
        order.copy_within(place..total, place + 1);
        order[place] = item;
    }
}
