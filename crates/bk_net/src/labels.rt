//! Which nodes of a net are joined by wires.
#![tactic(auto)]

ghost use Rattle.std.specs.Prelude.{IfNone, IfSome, length, slice_index, ◌<◌, ◌≡◌, ◌≢◌, ◌≤◌, ℕ};
ghost use Rattle.bk_net.specs.Labels.{AreLabels, EndsBelow, IsRelabelled, relabelled};

use crate::MOST_NODES;
use arrayvec::ArrayVec;

// For each node the number of a node that it is joined to: the same number for all nodes that are joined to one
// another.
pub(crate) fn labels_of(nodes: u16, wires: &[(u16, u16)]) -> ArrayVec<u16, MOST_NODES>
    requires few { nodes ≤ MOST_NODES }
    requires ends { EndsBelow nodes wires.now }
    ensures { AreLabels nodes wires.now result.items (length wires.now) }
{
    let mut labels = own_labels(nodes);
    for (from, to) in wires {
        let old = labels[usize::from(*from)];
        let new = labels[usize::from(*to)];
        relabel(labels.as_mut_slice(), old, new);
    }
    labels
}

// For each node its own number.
fn own_labels(nodes: u16) -> ArrayVec<u16, MOST_NODES>
    requires { nodes ≤ MOST_NODES }
    ensures many { length result.items ≡ nodes }
    ensures own { (v : ℕ) → v < nodes → slice_index result.items v ≡ v }
{
    let mut labels = ArrayVec::new();
    for v in 0..nodes {
        labels.push(v);
    }
    labels
}

// Puts one number in place of another.
fn relabel(labels: &mut [u16], old: u16, new: u16)
    ensures many { length labels.new ≡ length labels.old }
    ensures each { IsRelabelled old new labels.old labels.new }
{
    for label in labels.iter_mut() {
        *label = relabelled(*label, old, new);
    }
}

// The number, or the new one in place of the old one.
fn relabelled(label: u16, old: u16, new: u16) -> u16
    ensures { result ≡ relabelled old new label }
{
    if label == old { new } else { label }
}

// The first place where another label stands.
pub(crate) fn place_of_other(labels: &[u16], label: u16) -> Option<usize>
    ensures none { IfNone result ((v : ℕ) → v < length labels.now → slice_index labels.now v ≡ label) }
    ensures within { IfSome result (λ v. v < length labels.now) }
    ensures other { IfSome result (λ v. slice_index labels.now v ≢ label) }
    ensures before { IfSome result (λ v. (u : ℕ) → u < v → slice_index labels.now u ≡ label) }
{
    labels.iter().position(|it| *it != label)
}
