// The volume of a cell, its gradients, and the cell's edges from particle 0.
ghost use Rattle.std.specs.Prelude.{◌≡◌};
ghost use Rattle.shape.specs.Cell as spec;

use vector::{Four, Mat3, Vec3};

#[tactic(auto, unfolding(crate::specs::Cell::cell_edge_matrix))]
pub fn cell_edge_matrix(x: Four<Vec3>) -> Mat3
    ensures { result ≡ spec.cell_edge_matrix x }
{
    Mat3 {
        x: x.b - x.a,
        y: x.c - x.a,
        z: x.d - x.a,
    }
}

#[tactic(auto, unfolding(crate::specs::Cell::cell_edge_matrix, crate::specs::Cell::cell_volume))]
pub fn cell_volume(x: Four<Vec3>) -> f32
    ensures { result ≡ spec.cell_volume x }
{
    let edges = cell_edge_matrix(x);
    edges.x.dot(edges.y.cross(edges.z)) / 6.0
}

// The gradient by a particle, from the edges to the next two.
#[tactic(auto, unfolding(crate::specs::Cell::face_gradient))]
fn face_gradient(u: Vec3, v: Vec3) -> Vec3
    ensures { result ≡ spec.face_gradient u v }
{
    u.cross(v) / 6.0
}

#[tactic(auto, unfolding(crate::specs::Cell::cell_edge_matrix, crate::specs::Cell::cell_volume_gradients))]
pub fn cell_volume_gradients(x: Four<Vec3>) -> Four<Vec3>
    ensures { result ≡ spec.cell_volume_gradients x }
{
    let edges = cell_edge_matrix(x);
    let b = face_gradient(edges.y, edges.z);
    let c = face_gradient(edges.z, edges.x);
    let d = face_gradient(edges.x, edges.y);
    let sum = b + c + d;
    Four { a: -sum, b, c, d }
}
